//! Tests of garbling on many threads: which circuits they share, that they are really at work, and that memory may run
//! out on each of them.

use crate::fixtures::{Shape, circuit_of, garble_by, pause};
use gc_fixtures::compare::equal;
use gc_fixtures::counting::Counting;
use gc_fixtures::files::zero_seed;
use gc_fixtures::growths::{answer_of, refusals_met};
use gc_fixtures::meeting::Meeting;
use gc_work::{WorkFault, garble};
use gc_workers::{Gatehouse, Open, Way, way_of};
use std::sync::Wait;
use std::sync::atomic::{AtomicU64, Ordering};
use std::test::Fail;
use std::thread::Threads;

/// Several threads go together where the shares are free and three gates in four are AND, and else alone.
#[test]
fn ways_of_circuits(rt: HostRuntime) -> Result<(), Fail> {
    for (shape, threads, way) in [
        (Shape::Ands(2000), 4, Way::Together),
        (Shape::Ands(1000), 4, Way::Alone),
        (Shape::Mixed(64, 64), 2, Way::Together),
        (Shape::Mixed(1000, 3), 2, Way::Together),
        (Shape::Mixed(1100, 2), 1, Way::Alone),
        (Shape::Chains(40, 50), 4, Way::Together),
        (Shape::Chains(1, 3000), 4, Way::Alone),
    ] {
        let circuit = circuit_of(rt.alloc(), shape)?;
        equal(
            (shape, way_of(rt.alloc(), &circuit, threads)?),
            (shape, way),
        )?;
    }
    Ok(())
}

/// The workers 0 and 1 make 2,000 gates, each gate once: independent ones, and those of forty chains.
#[test]
fn two_workers_meet(rt: HostRuntime) -> Result<(), Fail> {
    for shape in [Shape::Ands(2000), Shape::Chains(40, 50)] {
        let observer = Meeting::new();
        garble_by(&rt, shape, 2, &observer)?;
        assert!(rt; observer.has_met() && observer.are_below(2) && observer.calls() == 2000);
    }
    Ok(())
}

/// Each by the number of the worker that makes it: on one thread, and through a store, with gates of each operation.
#[test]
fn each_gate_is_reported_once(rt: HostRuntime) -> Result<(), Fail> {
    for (shape, gates) in [
        (Shape::Adder, 5),
        (Shape::Mixed(64, 64), 4096),
        (Shape::Chains(64, 32), 2048),
    ] {
        for workers in [1, 2, 64] {
            let observer = Counting::new(rt.alloc(), gates)?;
            garble_by(&rt, shape, workers, &observer)?;
            assert!(rt; observer.is_each_reported(1, 1) && observer.are_below(workers));
        }
    }
    Ok(())
}

/// In how many runs a refusal meets this many workers, whichever threads it meets.
fn refused<R: AllocGlobal + Threads + Wait + Sync>(
    rt: &R,
    shape: Shape,
    workers: u32,
) -> Result<u64, Fail> {
    let circuit = circuit_of(rt.alloc(), shape)?;
    let met = refusals_met(rt.alloc(), |heap| {
        answer_of(
            garble(rt, heap, &circuit, &zero_seed(), workers, &Open),
            WorkFault::Memory,
        )
    })?;
    Ok(met.runs)
}

#[test]
fn each_growth_of_few_workers_refused(rt: HostRuntime) -> Result<(), Fail> {
    for (shape, workers, fewest) in [
        (Shape::Chains(40, 50), 2, 16),
        (Shape::Ands(2000), 2, 8),
        (Shape::Ands(16), 1, 1),
        (Shape::Empty, 2, 0),
    ] {
        assert!(rt; refused(&rt, shape, workers)? > fewest);
    }
    Ok(())
}

#[test]
fn each_growth_of_64_workers_refused(rt: HostRuntime) -> Result<(), Fail> {
    assert!(rt; refused(&rt, Shape::Chains(64, 16), 64)? > 128);
    Ok(())
}

/// Pauses at report 2,048, so that all other threads sleep when the work ends.
#[derive(Drop)]
struct Pausing {
    reports: AtomicU64,
}

impl Gatehouse for Pausing {
    fn before(&self, _worker: u32, _gate: u32) {
        if self.reports.fetch_add(1, Ordering::SeqCst) == 2047 {
            pause();
        }
    }
}

/// Workers that sleep when the last gate is made end too.
#[test]
fn sleeping_workers_end(rt: HostRuntime) -> Result<(), Fail> {
    let reports = AtomicU64::new(0);
    let observer = Pausing { reports };
    garble_by(&rt, Shape::Chains(64, 32), 3, &observer)?;
    assert!(rt; observer.reports.load(Ordering::SeqCst) >= 2048);
    Ok(())
}
