//! Tests of a store that is shared: its holder leaves, and what it held comes late; strangers are refused; and what is
//! sealed is taken back after a stop.

ghost use Rattle.gc_store.specs.Account.{IsForStore};

use crate::fixtures::{ledger, open};
use gc_circuit::Operation;
use gc_fixtures::compare::equal;
use gc_fixtures::files::zero_seed;
use gc_fixtures::refusing::Refusing;
use gc_label::{Seed, input_label, offset};
use gc_store::{Batch, Claimant, Refused, Sealed, SharedStore, Store, Tally, Task};
use std::alloc::{Allocator, Global};
use std::marker::Brand;
use std::sync::Wait;
use std::sync::ledger::{Blank, Ledger};
use std::test::Fail;
use std::thread;
use std::thread::Threads;

/// The sealed task of a gate that is an XOR of the input wires 0 and 2, as gate 0 of the full adder is.
fn stranger(seed: &Seed, gate: u32) -> Sealed {
    Sealed::make(Task {
        gate,
        operation: Operation::Xor(0, 2),
        and_number: 0,
        offset: offset(seed),
        first: input_label(seed, 0),
        second: input_label(seed, 2),
    })
}

/// A task under another seed and one of gate 5, which a larger circuit has, are refused, and nothing is counted or
/// claimed.
fn refuses_strangers<L: Ledger, A: Allocator>(
    rt: &impl Wait,
    shared: &SharedStore<L, A>,
    tally: &mut Tally<L>,
) -> Result<(), Fail> {
    let other = stranger(&Seed::from_bytes([1; 32]), 0);
    let beyond = stranger(&zero_seed(), 5);
    for (sealed, refused) in [
        (other, Refused::OtherInputs(other)),
        (beyond, Refused::NotClaimed(beyond)),
    ] {
        let mut batch = Batch::new();
        let answer = shared.hand_in(rt, sealed, tally, &mut batch);
        equal((answer, tally.count(), batch.len()), (Err(refused), 0, 0))?;
    }
    Ok(())
}

/// Gates 0 and 1 are taken, and 0 is handed in. The holder of 1, a thread, stops the store and ends. Returns the task
/// of gate 1.
fn leave<L: Ledger + Send + Sync, A: Allocator + Send + Sync, R: Threads + Wait + Sync>(
    rt: &R,
    shared: &SharedStore<L, A>,
    tally: &mut Tally<L>,
) -> Result<Task, Fail> {
    let zero = Sealed::make(shared.take(rt).ok_or("gate 0 is ready")?);
    let one = shared.take(rt).ok_or("gate 1 is ready")?;
    refuses_strangers(rt, shared, tally)?;
    let mut batch = Batch::new();
    let answer = shared.hand_in(rt, zero, tally, &mut batch);
    let next = batch.pop().map(|task| task.gate);
    let _ = thread::join(rt, || shared.stop(rt), || ());
    equal((answer, next, shared.take(rt)), (Ok(false), Some(3), None))?;
    Ok(one)
}

/// Claims a gate, and returns it.
fn claim_gate<L: Ledger, A: Allocator>(store: &mut Store<L, A>) -> Option<u32> {
    Some(store.claim()?.gate)
}

/// What was claimed goes again, and the late task of gate 1 is refused until its gate is claimed again.
fn comes_late<L: Ledger, A: Allocator>(
    store: &mut Store<L, A>,
    tally: &mut Tally<L>,
    late: Sealed,
) -> Result<(), Fail> {
    let reopened = store.reopen();
    let refused = store.finish(late, tally);
    let gates = [claim_gate(store), claim_gate(store), claim_gate(store)];
    let accepted = store.finish(late, tally);
    equal((reopened, gates), (2, [Some(1), Some(3), None]))?;
    equal(
        (refused, accepted),
        (Err(Refused::NotClaimed(late)), Ok(false)),
    )
}

/// A store is shared, its holder leaves, and the task that it held comes late. An incomplete store isn't a garbling.
fn holder_leaves<L: Ledger + Send + Sync, R: Threads + Wait + Sync>(
    rt: &R,
    heap: &Refusing<Global>,
    ledger: Blank,
) -> Result<(), Fail>
    requires { IsForStore L.name L.parts ledger }
{
    let mut store = open::<L, &Refusing<Global>>(heap, ledger).ok_or("there is memory")?;
    let opened = heap.growths();
    let mut tally = store.tally().ok_or("no tally was dealt")?;
    let shared = SharedStore::new(store);
    let late = Sealed::make(leave(rt, &shared, &mut tally)?);
    match shared.into_store().into_garbling() {
        Ok(_) => return Err(Fail::new("the store is complete")),
        Err(mut store) => comes_late(&mut store, &mut tally, late)?,
    }
    equal(heap.growths(), opened)
}

/// None of it asks for memory.
#[test]
fn a_holder_leaves(rt: HostRuntime) -> Result<(), Fail> {
    let heap = Refusing::never(rt.alloc());
    holder_leaves::<Brand, HostRuntime>(&rt, &heap, ledger())
}

/// Of two tasks of gate 0 that are handed in at once the second is refused, and the first is counted. After a stop gate
/// 1 is taken back, and nothing is claimed.
fn takes_back<L: Ledger>(rt: &impl Wait, alloc: Global, ledger: Blank) -> Result<(), Fail>
    requires { IsForStore L.name L.parts ledger }
{
    let mut store = open::<L, Global>(alloc, ledger).ok_or("there is memory")?;
    let mut claimant = Claimant {
        tally: store.tally().ok_or("no tally was dealt")?,
        batch: Batch::new(),
    };
    let shared = SharedStore::new(store);
    let zero = Sealed::make(shared.take(rt).ok_or("gate 0 is ready")?);
    let one = Sealed::make(shared.take(rt).ok_or("gate 1 is ready")?);
    let twice = shared.hand_in_all(rt, &[zero, zero], &mut claimant);
    shared.stop(rt);
    let stopped = shared.hand_in(rt, one, &mut claimant.tally, &mut claimant.batch);
    equal(
        (twice, stopped),
        (Err(Refused::NotClaimed(zero)), Ok(false)),
    )?;
    let found = (
        claimant.tally.count(),
        claimant.batch.len(),
        shared.take(rt),
    );
    equal(found, (2, 0, None))
}

#[test]
fn takes_back_after_a_stop(rt: HostRuntime) -> Result<(), Fail> {
    takes_back::<Brand>(&rt, rt.alloc(), ledger())
}
