//! Each growth refused in turn of the opening of banks and of the evaluation of a list of jobs.

use crate::fixtures::{on_three_jobs, on_two_jobs};
use crate::jobs::together;
use gc_bank::{Banks, evaluate_jobs};
use gc_fixtures::circuits::many_ands;
use gc_fixtures::compare::equal;
use gc_fixtures::growths::{Met, Returned, answer_of, refusals_met};
use gc_fixtures::refusing::Refusing;
use gc_job::{EvalFault, Job};
use gc_workers::{Open, OpenFault};
use std::alloc::Allocator;
use std::sync::Wait;
use std::test::Fail;
use std::thread::Threads;

/// How many seats banks over this memory have. None: the jobs can't be evaluated together.
fn opened<A: Allocator + Copy>(alloc: A, jobs: &[Job]) -> Option<Result<usize, OpenFault>> {
    let jobs = together(jobs)?;
    Some(Banks::open(alloc, jobs, 2).map(|(_, seats)| seats.len()))
}

/// The seats, the two tables of the circuit, the list of jobs, the words, and at last the table's own two
/// blocks.
#[test]
fn opening(rt: HostRuntime) -> Result<(), Fail> {
    on_three_jobs(rt.alloc(), |jobs| {
        for (n, found) in [
            (1, Err(OpenFault::Memory)),
            (2, Err(OpenFault::Memory)),
            (3, Err(OpenFault::Memory)),
            (4, Err(OpenFault::Memory)),
            (5, Err(OpenFault::Memory)),
            (6, Err(OpenFault::NoTable)),
            (7, Err(OpenFault::NoTable)),
            (8, Ok(2)),
        ] {
            let heap = Refusing::nth(rt.alloc(), n);
            equal((n, opened(&heap, jobs)), (n, Some(found)))?;
        }
        Ok(())
    })
}

/// The runs of this many workers that meet a refused growth.
fn refused_runs<R: AllocGlobal + Threads + Wait + Sync>(
    rt: &R,
    jobs: &[Job],
    workers: u32,
) -> Result<Met, Fail> {
    let met = refusals_met(rt.alloc(), |heap| match together(jobs) {
        Some(jobs) => {
            answer_of(
                evaluate_jobs(rt, heap, jobs, workers, &Open),
                EvalFault::Memory,
            )
        }
        None => Returned::Other,
    })?;
    Ok(met)
}

/// Fewer jobs than workers, on a wide circuit, are shared at the banks. These allocate seven times, the workers once
/// each and once together, and the results twice together and at least twice for each job. Without memory for the
/// banks and the workers one thread evaluates the jobs.
#[test]
fn each_growth_of_shared_jobs_refused(rt: HostRuntime) -> Result<(), Fail> {
    let alloc = rt.alloc();
    let text = many_ands(alloc, 1100)?;
    let ones = "1".repeat(alloc, 1100)?;
    on_two_jobs(alloc, text.as_str(), ones.as_str(), |jobs| {
        for (workers, runs) in [(3, 16), (16, 29)] {
            let refused = refused_runs(&rt, jobs, workers)?;
            let opening = 8 + u64::from(workers);
            let is_right = refused.runs >= runs && refused.before_fault >= opening;
            equal((workers, refused, is_right), (workers, refused, true))?;
        }
        Ok(())
    })
}

/// Otherwise each worker evaluates jobs of its own: the list allocates twice, and each job at least twice. Only without
/// memory for the list of the results, which is allocated last, are there none.
#[test]
fn each_growth_of_jobs_apart_refused(rt: HostRuntime) -> Result<(), Fail> {
    on_three_jobs(rt.alloc(), |jobs| {
        for workers in [1, 2, 64] {
            let refused = refused_runs(&rt, jobs, workers)?;
            let is_last = refused.before_fault.checked_add(1) == Some(refused.runs);
            let is_right = refused.runs >= 7 && is_last;
            equal((workers, refused, is_right), (workers, refused, true))?;
        }
        Ok(())
    })
}
