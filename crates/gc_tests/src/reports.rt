//! Tests of reports at a store: when they come, and from which thread.

use crate::fixtures::{Shape, garble_by, pause, read};
use gc_circuit::Circuit;
use gc_fixtures::calling::Calling;
use gc_fixtures::files::zero_seed;
use gc_work::garble;
use gc_workers::Gatehouse;
use std::alloc::Global;
use std::sync::atomic::{AtomicU64, Ordering};
use std::test::Fail;

/// How many gates a group has, and which of them is its head.
const GROUP: u32 = 50;

const HEAD: u32 = 9;

/// Forty groups of AND gates: a chain of ten gates, and forty gates that read what the last of these sets, the head.
fn fans(alloc: Global) -> Result<Circuit, Fail> {
    let mut text = String::from_str(alloc, "2000 2040\n1 40\n1 1\n")?;
    for gate in 0..2000u64 {
        let (group, place) = (gate / 50, gate % 50);
        let read = match place {
            0 => group,
            1..=9 => gate + 39,
            _ => 50 * group + 49,
        };
        text.push_str(format!(in alloc; "2 1 {read} {group} {} AND\n", gate + 40)?.as_str())?;
    }
    read(alloc, text.as_str())
}

/// Pauses before it lets a head pass, and counts the gates that read a head's wire and come before it passed.
#[derive(Drop)]
struct Heads {
    // Bit g is set once the head of group g has passed.
    passed: AtomicU64,
    early: AtomicU64,
}

impl Gatehouse for Heads {
    fn before(&self, _worker: u32, gate: u32) {
        let bit = 1u64 << (gate / GROUP % 64);
        let place = gate % GROUP;
        if place == HEAD {
            pause();
            self.passed.fetch_or(bit, Ordering::SeqCst);
        } else if place > HEAD && self.passed.load(Ordering::SeqCst) & bit == 0 {
            self.early.fetch_add(1, Ordering::SeqCst);
        }
    }
}

/// While a head is being reported no other worker reports a gate that reads its wire: it isn't handed in yet.
#[test]
fn a_gate_is_reported_before_it_is_handed_in(rt: HostRuntime) -> Result<(), Fail> {
    let circuit = fans(rt.alloc())?;
    let observer = Heads {
        passed: AtomicU64::new(0),
        early: AtomicU64::new(0),
    };
    garble(&rt, rt.alloc(), &circuit, &zero_seed(), 4, &observer)?;
    assert!(rt; observer.early.load(Ordering::SeqCst) == 0);
    Ok(())
}

/// On one thread, and through a store.
#[test]
fn worker_0_is_the_calling_thread(rt: HostRuntime) -> Result<(), Fail> {
    for shape in [Shape::Adder, Shape::Chains(64, 32)] {
        let observer = Calling::new(rt)?;
        garble_by(&rt, shape, 4, &observer)?;
        assert!(rt; observer.is_worker_0());
    }
    Ok(())
}
