//! Evaluating a list of jobs.

ghost use Rattle.std.specs.Prelude.{◌≤◌, ◌<◌, length, map};
ghost use Rattle.std.specs.Result.{result_map_both};
ghost use Rattle.gc_bank.specs.Jobs.{AreOnOneCircuit, AreEvaluatedBy};

use crate::apart::evaluate_apart;
use crate::together::evaluate_together;
use gc_job::{EvalFault, Job, evaluate_rest};
use gc_rounds::MAX_JOBS;
use gc_workers::{Crew, Gatehouse, MAX_WORKERS, Way, way_of};
use std::alloc::Allocator;
use std::thread::Threads;

/// The output bits of each job, in order, with this number of workers: what [`gc_job::evaluate`] returns for it, honest
/// job or not. Where there are no fewer jobs than workers, or a job's gates would gain nothing by several threads, each
/// worker evaluates an equal share of the list, four jobs at once. Otherwise the workers share each job: they have
/// [`Banks`](crate::Banks). A worker calls `observer.before` for each gate before it evaluates it. A thread is started
/// for each worker but one, and where one can't be started the calling thread does its work too. A job whose bits no
/// worker has when all have ended is evaluated on one thread, as are all where there is no memory for the banks.
///
/// It refuses 0 workers and more than [`MAX_WORKERS`]: 22. Else it is 48 for the first job of which the garbled file
/// doesn't recognise an output label, at the first such output. Memory is the other fault. The caller ensures that
/// there are 1 to [`MAX_JOBS`] jobs, all on one circuit; [`one_circuit`](crate::one_circuit) is the test.
pub fn evaluate_jobs<
    A: Allocator + Send + Sync,
    B: Allocator + Copy + Send + Sync,
    C: Allocator + Send + Sync,
    H: Gatehouse + Sync,
    R: Threads + Sync,
>(
    rt: &R,
    alloc: B,
    jobs: &[Job<'_, A, C>],
    workers: u32,
    observer: &H,
) -> Result<Vec<Vec<bool, B>, B>, EvalFault>
    requires count { (0 < length jobs.now) × (length jobs.now ≤ MAX_JOBS) }
    requires one { AreOnOneCircuit jobs.now }
    ensures { AreEvaluatedBy workers jobs.now
        (result_map_both (λ all. map (λ bits. bits.items) all.items) (λ fault. fault) result) }
{
    if workers == 0 || workers > MAX_WORKERS {
        return Err(EvalFault::BadWorkers);
    }
    let crew = Crew {
        rt,
        alloc,
        workers,
        observer,
    };
    let known = if is_shared(alloc, jobs, workers) {
        evaluate_together(&crew, jobs)
    } else {
        evaluate_apart(&crew, jobs)
    };
    evaluate_rest(alloc, jobs, known)
}

/// Whether several workers share each job, in place of evaluating jobs of their own.
fn is_shared<A: Allocator, B: Allocator + Copy, C: Allocator>(
    alloc: B,
    jobs: &[Job<'_, A, C>],
    workers: u32,
) -> bool
    requires { 0 < length jobs.now }
{
    jobs.len() < workers as usize
        && matches!(way_of(alloc, jobs[0].circuit(), workers), Ok(Way::Together))
}
