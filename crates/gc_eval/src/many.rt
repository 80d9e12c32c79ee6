//! Evaluating a job on many threads.

ghost use Rattle.std.specs.Prelude.{◌≡◌, ℕ, Bool, List, All, IfOk, IfErr, IfSome, MatchResult, Ok, Err};
ghost use Rattle.std.specs.Result.{result_map_both};
ghost use Rattle.gc_circuit.specs.Meaning.{AreOutputs};
ghost use Rattle.gc_workers.specs.Workers.{AreFew};
ghost use Rattle.gc_job.specs.Evaluate.{IsEvaluated};
ghost use Rattle.gc_job.specs.Honest.{IsHonest};
ghost use Rattle.gc_eval.specs.Many.{IsEvaluatedBy};
ghost use Rattle.gc_eval.specs.Workers.{IsWorkerOf, AreWorkersOf};

use crate::seat::EvalBoard;
use crate::worker::{Worker, seats_of, workers_of};
use gc_circuit::Memory;
use gc_job::{EvalFault, Job, evaluate};
use gc_workers::{Crew, Gatehouse, MAX_WORKERS, Way, report_all, way_of};
use std::alloc::Allocator;
use std::sync::Wait;
use std::thread;
use std::thread::Threads;

/// Evaluates a job with this number of workers: the result is what [`evaluate`] returns, honest job or not. The calling
/// thread is worker 0; a thread is started for each other worker that has something to do, and where one can't be
/// started the calling thread does its work too. Where three gates in four are AND, and as many need no gate of another
/// worker's share ([`way_of`]), each has a seat at a board. Else worker 0 evaluates alone, as it does where the workers
/// can't have their memory. `observer.before` is called for each gate before it is evaluated, and ahead of each step at
/// a board.
///
/// It refuses 0 workers and more than [`MAX_WORKERS`]: 22.
pub fn evaluate_many<
    A: Allocator + Send + Sync,
    B: Allocator + Copy + Send + Sync,
    C: Allocator + Send + Sync,
    H: Gatehouse + Sync,
    R: Threads + Wait + Sync,
>(
    rt: &R,
    alloc: B,
    job: &Job<'_, A, C>,
    workers: u32,
    observer: &H,
) -> Result<Vec<bool, B>, EvalFault>
    ensures evaluated { IsEvaluatedBy workers job.now
        (result_map_both (λ bits. bits.items) (λ fault. fault) result) }
    ensures honest { (seed : List ℕ) (bits : List Bool) → IsHonest job.now seed bits
        → AreFew workers →
        MatchResult result (λ outputs. AreOutputs job.now.circuit bits outputs.items)
        (λ fault. fault ≡ EvalFault.Memory) }
{
    if workers == 0 || workers > MAX_WORKERS {
        return Err(EvalFault::BadWorkers);
    }
    job.law_whole();
    let crew = Crew {
        rt,
        alloc,
        workers,
        observer,
    };
    match evaluate_by_many(&crew, job)? {
        Some(bits) => Ok(bits),
        None => {
            report_all(observer, job.circuit().gates());
            evaluate(alloc, job)
        }
    }
}

/// What the workers evaluate on a board. There is no result where there is no memory for it, or where one thread does
/// as well.
fn evaluate_by_many<
    A: Allocator + Send + Sync,
    B: Allocator + Copy + Send + Sync,
    C: Allocator + Send + Sync,
    H: Gatehouse + Sync,
    R: Threads + Wait + Sync,
>(crew: &Crew<'_, B, H, R>, job: &Job<'_, A, C>) -> Result<Option<Vec<bool, B>>, EvalFault>
    requires { AreFew crew.now.workers }
    ensures ok { IfOk result (λ o. IfSome o (λ v. IsEvaluated job.now (Ok v.items))) }
    ensures err { IfErr result (λ fault. IsEvaluated job.now (Err fault)) }
{
    match way_of(crew.alloc, job.circuit(), crew.workers) {
        Ok(Way::Together) => evaluate_together(crew, job),
        Ok(Way::Alone) | Err(Memory) => Ok(None),
    }
}

/// What the workers evaluate on a board. There is no result where there is no memory for it, or where an output wire
/// got no label.
fn evaluate_together<
    A: Allocator + Send + Sync,
    B: Allocator + Copy + Send + Sync,
    C: Allocator + Send + Sync,
    H: Gatehouse + Sync,
    R: Threads + Sync,
>(crew: &Crew<'_, B, H, R>, job: &Job<'_, A, C>) -> Result<Option<Vec<bool, B>>, EvalFault>
    requires { AreFew crew.now.workers }
    ensures ok { IfOk result (λ o. IfSome o (λ v. IsEvaluated job.now (Ok v.items))) }
    ensures err { IfErr result (λ fault. IsEvaluated job.now (Err fault)) }
{
    let alloc = crew.alloc;
    let Ok((board, seats)) = EvalBoard::open_by_two(crew.rt, alloc, job, crew.workers) else {
        return Ok(None);
    };
    let Ok(mut workers) = workers_of(alloc, &board, seats) else {
        return Ok(None);
    };
    work_together(crew, &board, workers.as_mut_slice());
    let Ok(seats) = seats_of(alloc, &board, workers) else {
        return Ok(None);
    };
    match board.close(seats) {
        Ok(active) => active.decode(alloc),
        Err(_) => Ok(None),
    }
}

/// Lets the workers make what they can, the last one on the calling thread and each other in a thread of its own, where
/// one can be started. When all have ended, the last one learns what the others know and makes one further pass.
fn work_together<
    A: Allocator + Send + Sync,
    B: Allocator + Copy + Send + Sync,
    C: Allocator + Send + Sync,
    H: Gatehouse + Sync,
    R: Threads + Sync,
>(crew: &Crew<'_, B, H, R>, board: &EvalBoard<'_, '_, B, A, C>, workers: &mut [Worker<B, A, C>])
    requires { AreWorkersOf board.now workers.old }
    ensures { AreWorkersOf board.now workers.new }
{
    all_work(crew, board, workers);
    if let Some((last, others)) = workers.split_last_mut() {
        last.finish(board, crew.observer, others);
    }
}

/// All workers work, each on a thread.
fn all_work<
    A: Allocator + Send + Sync,
    B: Allocator + Copy + Send + Sync,
    C: Allocator + Send + Sync,
    H: Gatehouse + Sync,
    R: Threads + Sync,
>(crew: &Crew<'_, B, H, R>, board: &EvalBoard<'_, '_, B, A, C>, workers: &mut [Worker<B, A, C>])
    requires { AreWorkersOf board.now workers.old }
    ensures { AreWorkersOf board.now workers.new }
{
    let count = workers.len().max(1);
    thread::for_each_mut(
        crew.rt,
        workers,
        count,
        &|_i: usize, worker: &mut Worker<B, A, C>|
            requires { IsWorkerOf board.now worker.now }
            ensures { IsWorkerOf board.entry.now worker.exit.now }
        { worker.work(board, crew.observer) },
    );
}
