//! Tests of the evaluation of lists of jobs: the threads are really at work.

ghost use Rattle.std.specs.Prelude.{◌≡◌, ◌<◌, ◌≤◌, length, IfSome};
ghost use Rattle.gc_bank.specs.Jobs.{AreOnOneCircuit};

use crate::fixtures::{on_three_jobs, on_two_jobs};
use gc_bank::{evaluate_jobs, one_circuit};
use gc_fixtures::circuits::{and_chains, many_ands};
use gc_fixtures::compare::equal;
use gc_fixtures::counting::Counting;
use gc_fixtures::meeting::Meeting;
use gc_job::Job;
use gc_rounds::MAX_JOBS;
use std::sync::Wait;
use std::test::Fail;
use std::thread::Threads;

/// These jobs, where they can be evaluated together.
pub(crate) fn together<'s, 'c>(jobs: &'s [Job<'c>]) -> Option<&'s [Job<'c>]>
    ensures same { IfSome result (λ given. given.now ≡ jobs.now) }
    ensures few { IfSome result (λ given. (0 < length given.now) × (length given.now ≤ MAX_JOBS)) }
    ensures circuit { IfSome result (λ given. AreOnOneCircuit given.now) }
{
    if jobs.is_empty() || jobs.len() > MAX_JOBS || !one_circuit(jobs) {
        return None;
    }
    Some(jobs)
}

/// Whether two of this many workers meet as they evaluate jobs together, each by its own number.
fn meet<R: AllocGlobal + Threads + Wait + Sync>(rt: &R, jobs: &[Job], workers: u32) -> bool {
    let observer = Meeting::new();
    let Some(jobs) = together(jobs) else {
        return false;
    };
    let found = evaluate_jobs(rt, rt.alloc(), jobs, workers, &observer);
    found.is_ok() && observer.has_met() && observer.are_below(workers)
}

/// Whether this many workers report each gate of the jobs' circuit, once for each job where they evaluate jobs of their
/// own, and each by its own number.
fn is_each_reported<R: AllocGlobal + Threads + Wait + Sync>(
    rt: &R,
    jobs: &[Job],
    workers: u32,
) -> Result<bool, Fail> {
    let gates = jobs.first().map_or(0, |job| job.circuit().gates());
    let observer = Counting::new(rt.alloc(), gates)?;
    let jobs = together(jobs).ok_or("the jobs are on one circuit")?;
    evaluate_jobs(rt, rt.alloc(), jobs, workers, &observer)?;
    let each = jobs.len() as u64;
    let most = if each < u64::from(workers) {
        u64::MAX
    } else {
        each
    };
    Ok(observer.is_each_reported(each, most) && observer.are_below(workers))
}

/// Each gate of each job is reported by one worker, by two and by 64.
fn are_reported<R: AllocGlobal + Threads + Wait + Sync>(rt: &R, jobs: &[Job]) -> Result<(), Fail> {
    for workers in [1, 2, 64] {
        equal(
            (workers, is_each_reported(rt, jobs, workers)?),
            (workers, true),
        )?;
    }
    Ok(())
}

/// Each gate of each of two jobs is reported: by one worker, and by two that evaluate a job each, once; by 64 that
/// share both at the banks, at least once, where AND gates are stepped four at once, and two.
#[test]
fn gates_of_jobs_are_reported(rt: HostRuntime) -> Result<(), Fail> {
    let alloc = rt.alloc();
    for (text, width) in [
        (many_ands(alloc, 2000)?, 2000),
        (and_chains(alloc, 64, 32)?, 64),
    ] {
        let zeros = "0".repeat(alloc, width)?;
        on_two_jobs(
            alloc,
            text.as_str(),
            zeros.as_str(),
            |jobs| are_reported(&rt, jobs),
        )?;
    }
    Ok(())
}

/// Of three jobs one worker evaluates all, two workers two and one, and three of 64 a job each.
#[test]
fn no_more_workers_than_asked_for(rt: HostRuntime) -> Result<(), Fail> {
    on_three_jobs(rt.alloc(), |jobs| are_reported(&rt, jobs))
}

/// Two workers evaluate a job each, of two on 2,000 independent AND gates; two of three step the gates of both jobs,
/// and two workers those of one job.
#[test]
fn two_job_workers_meet(rt: HostRuntime) -> Result<(), Fail> {
    let alloc = rt.alloc();
    let text = many_ands(alloc, 2000)?;
    let zeros = "0".repeat(alloc, 2000)?;
    on_two_jobs(alloc, text.as_str(), zeros.as_str(), |jobs| {
        let first = jobs.split_at(jobs.len().min(1)).0;
        let met = [meet(&rt, jobs, 2), meet(&rt, jobs, 3), meet(&rt, first, 2)];
        equal((first.len(), met), (1, [true; 3]))
    })
}
