//! Tests of evaluation on many threads: the threads are really at work, and memory may run out on each of them.

use crate::fixtures::on_zeros;
use gc_eval::evaluate_many;
use gc_fixtures::calling::Calling;
use gc_fixtures::circuits::{FULL_ADDER, and_chains, many_ands, mixed_chains};
use gc_fixtures::compare::equal;
use gc_fixtures::counting::Counting;
use gc_fixtures::growths::{Met, answer_of, refusals_met};
use gc_fixtures::meeting::Meeting;
use gc_job::{EvalFault, Job};
use gc_workers::Open;
use std::alloc::Global;
use std::sync::Wait;
use std::test::Fail;
use std::thread::Threads;

/// The workers 0 and 1 meet as they evaluate a circuit.
fn meet<R: AllocGlobal + Threads + Wait + Sync>(rt: &R, text: &str) -> Result<(), Fail> {
    on_zeros(rt.alloc(), text, |job| {
        let observer = Meeting::new();
        evaluate_many(rt, rt.alloc(), job, 2, &observer)?;
        equal((observer.has_met(), observer.are_below(2)), (true, true))
    })
}

/// Two workers evaluate 2,000 AND gates: independent ones, and those of forty chains.
#[test]
fn two_evaluators_meet(rt: HostRuntime) -> Result<(), Fail> {
    meet(&rt, many_ands(rt.alloc(), 2000)?.as_str())?;
    meet(&rt, and_chains(rt.alloc(), 40, 50)?.as_str())
}

/// 64 groups of chains of eight AND gates, four chains in each, of which the gates take turns in the file: four gates
/// that follow each other are stepped at once.
fn chains_by_fours(alloc: Global) -> Result<String, Fail> {
    let mut text = String::from_str(alloc, "2048 2052\n1 4\n1 1\n")?;
    for gate in 0..2048u64 {
        let chain = gate % 4;
        let read = if gate % 32 < 4 { chain } else { gate };
        text.push_str(format!(in alloc; "2 1 {read} {chain} {} AND\n", gate + 4)?.as_str())?;
    }
    Ok(text)
}

/// One worker, two and 64 report each gate of a circuit, none more often than this, each by its own number.
fn are_reported<R: AllocGlobal + Threads + Wait + Sync>(
    rt: &R,
    text: &str,
    most: u64,
) -> Result<(), Fail> {
    on_zeros(rt.alloc(), text, |job| {
        for workers in [1, 2, 64] {
            let observer = Counting::new(rt.alloc(), job.circuit().gates())?;
            evaluate_many(rt, rt.alloc(), job, workers, &observer)?;
            let found = (
                observer.is_each_reported(1, most),
                observer.are_below(workers),
            );
            equal((workers, found), (workers, (true, true)))?;
        }
        Ok(())
    })
}

/// Once on one thread; at a board, with gates of each operation and where gates are stepped one, two and four at once,
/// at least once.
#[test]
fn each_gate_is_reported(rt: HostRuntime) -> Result<(), Fail> {
    let alloc = rt.alloc();
    are_reported(&rt, FULL_ADDER, 1)?;
    are_reported(&rt, mixed_chains(alloc, 64, 64)?.as_str(), u64::MAX)?;
    are_reported(&rt, and_chains(alloc, 64, 32)?.as_str(), u64::MAX)?;
    are_reported(&rt, chains_by_fours(alloc)?.as_str(), u64::MAX)
}

/// On one thread, and at a board.
#[test]
fn worker_0_is_the_calling_thread(rt: HostRuntime) -> Result<(), Fail> {
    let alone = String::from_str(rt.alloc(), FULL_ADDER)?;
    let at_a_board = and_chains(rt.alloc(), 64, 32)?;
    for text in [&alone, &at_a_board] {
        on_zeros(rt.alloc(), text.as_str(), |job| {
            let observer = Calling::new(rt)?;
            evaluate_many(&rt, rt.alloc(), job, 4, &observer)?;
            equal(observer.is_worker_0(), true)
        })?;
    }
    Ok(())
}

/// The runs of this many workers that meet a refused growth.
fn refused_runs<R: AllocGlobal + Threads + Wait + Sync>(
    rt: &R,
    job: &Job,
    workers: u32,
) -> Result<Met, Fail> {
    let met = refusals_met(rt.alloc(), |heap| {
        answer_of(
            evaluate_many(rt, heap, job, workers, &Open),
            EvalFault::Memory,
        )
    })?;
    Ok(met)
}

/// Choosing the way allocates once where there are several threads; the board six times, the workers once each and
/// once together, the seats that are back once, and the output labels and bits once each. Only without memory for one
/// of the last two is there no result. On one thread there are the labels of all wires, those of the output wires, and
/// the bits, and no result without them.
#[test]
fn each_growth_refused(rt: HostRuntime) -> Result<(), Fail> {
    let alloc = rt.alloc();
    on_zeros(alloc, FULL_ADDER, |job| {
        let refused = refused_runs(&rt, job, 1)?;
        equal((refused.runs, refused.plain), (3, 0))
    })?;
    on_zeros(alloc, and_chains(alloc, 64, 16)?.as_str(), |job| {
        for (workers, runs, plain) in [(2, 13, 11), (64, 75, 73)] {
            let before_fault = plain;
            let wanted = Met {
                runs,
                plain,
                before_fault,
            };
            equal(refused_runs(&rt, job, workers)?, wanted)?;
        }
        Ok(())
    })
}
