//! The evaluation of jobs on one thread and by workers.

use anyhow::{Result, anyhow};
use gc_bank::{evaluate_jobs, one_circuit};
use gc_half::Four;
use gc_job::{AsJob, Job, evaluate, evaluate_four};
use gc_rounds::MAX_JOBS;
use gc_workers::Open;
use std::alloc::Global;
use std::thread::Threads;

/// Evaluates the jobs on one thread, one after another.
pub fn one_after_another(alloc: Global, jobs: &[Job]) -> Result<()> {
    for job in jobs {
        evaluate(alloc, job)?;
    }
    Ok(())
}

/// Evaluates a job four times, side by side.
pub fn side_by_side(alloc: Global, job: &Job) -> Result<()> {
    let four = evaluate_four(
        alloc,
        Four {
            a: job.as_job(),
            b: job.as_job(),
            c: job.as_job(),
            d: job.as_job(),
        },
    );
    if four.d.is_none() {
        return Err(anyhow!("the job has no output bits"));
    }
    Ok(())
}

/// Evaluates the jobs with this many workers.
pub fn together<R: Threads + Sync>(
    rt: &R,
    alloc: Global,
    jobs: &[Job],
    workers: u32,
) -> Result<()> {
    if jobs.is_empty() || jobs.len() > MAX_JOBS || !one_circuit(jobs) {
        return Err(anyhow!("the jobs are no list on one circuit"));
    }
    evaluate_jobs(rt, alloc, jobs, workers, &Open)?;
    Ok(())
}
