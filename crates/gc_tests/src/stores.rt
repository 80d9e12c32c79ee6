//! Tests of a store of the full adder: which gates are ready after each step, its tallies, each growth of opening it
//! refused in turn, and the work on it, which doesn't allocate.

ghost use Rattle.gc_store.specs.Account.{IsForStore};

use crate::fixtures::{finish_gates, ledger, open};
use gc_circuit::Circuit;
use gc_fixtures::circuits::FULL_ADDER;
use gc_fixtures::compare::equal;
use gc_fixtures::files::zero_seed;
use gc_fixtures::growths::{Returned, runs_refused};
use gc_fixtures::refusing::Refusing;
use gc_store::{Batch, Sealed, Store, Tally, TallyMissing, Task};
use std::alloc::{Allocator, Global};
use std::marker::Brand;
use std::sync::ledger::{Blank, Ledger};
use std::test::Fail;

/// A step of the work: these gates, which were claimed, are finished; then these are ready, and claimed; and whether no
/// others are ready.
type Step = (&'static [u32], &'static [u32], bool);

/// Orders of work. Gates 0 and 1 read input wires alone, gates 2 and 3 read what gate 0 sets, gate 2 also what gate 1
/// sets, and gate 4 reads what gate 2 sets.
static ORDERS: [&[Step]; 3] = [
    &[
        (&[], &[0, 1], true),
        (&[0], &[3], true),
        (&[1], &[2], true),
        (&[2], &[4], true),
    ],
    &[(&[], &[0, 1], true), (&[0, 1], &[2, 3], true)],
    &[
        (&[], &[0, 1], true),
        (&[0, 1], &[2], false),
        (&[2], &[3, 4], true),
    ],
];

/// Takes a step. None: it doesn't go as it says.
fn take<L: Ledger>(
    store: &mut Store<L>,
    tally: &mut Tally<L>,
    claimed: &mut Vec<Task>,
    step: &Step,
) -> Option<()> {
    let (finishes, claims, is_all) = *step;
    for gate in finishes {
        let task = *claimed.iter().find(|task| task.gate == *gate)?;
        store.finish(Sealed::make(task), tally).ok()?;
    }
    for _gate in claims {
        let task = store.claim()?;
        if !claims.contains(&task.gate) {
            return None;
        }
        claimed.push(task).ok()?;
    }
    if is_all && store.claim().is_some() {
        return None;
    }
    Some(())
}

/// Takes these steps. None: one doesn't go as it says.
fn take_all<L: Ledger>(alloc: Global, ledger: Blank, steps: &[Step]) -> Option<()>
    requires { IsForStore L.name L.parts ledger }
{
    let mut store = open::<L, Global>(alloc, ledger)?;
    let mut tally = store.tally()?;
    let mut claimed = Vec::new(alloc);
    for step in steps {
        take(&mut store, &mut tally, &mut claimed, step)?;
    }
    Some(())
}

#[test]
fn gates_go_in_order(rt: HostRuntime) -> Result<(), Fail> {
    for steps in ORDERS {
        let found = take_all::<Brand>(rt.alloc(), ledger(), steps);
        equal((steps, found), (steps, Some(())))?;
    }
    Ok(())
}

/// Two gates are finished with one tally and one with another. Adds the tallies up, first without the other one.
fn settled<L: Ledger>(
    alloc: Global,
    store: &mut Store<L>,
) -> Option<[Result<u64, TallyMissing>; 2]> {
    let (mut one, mut other) = (store.tally()?, store.tally()?);
    finish_gates(store, &mut one, 2)?;
    finish_gates(store, &mut other, 1)?;
    let mut tallies = Vec::new(alloc);
    tallies.push(one).ok()?;
    let without = store.settle(&mut tallies);
    tallies.push(other).ok()?;
    Some([without, store.settle(&mut tallies)])
}

/// The tallies add up. After these two, 62 more are dealt.
fn adds_up<L: Ledger>(alloc: Global, ledger: Blank) -> Result<(), Fail>
    requires { IsForStore L.name L.parts ledger }
{
    let mut store = open::<L, Global>(alloc, ledger).ok_or("there is memory")?;
    let sums = settled(alloc, &mut store);
    equal(sums, Some([Err(TallyMissing), Ok(3)]))?;
    equal((2..100).find(|_| store.tally().is_none()), Some(64))
}

#[test]
fn tallies_add_up(rt: HostRuntime) -> Result<(), Fail> {
    adds_up::<Brand>(rt.alloc(), ledger())
}

/// Whether a store of the full adder opens; its circuit is read over the same memory.
fn opens<L: Ledger, A: Allocator + Copy>(alloc: A, ledger: Blank) -> Returned
    requires { IsForStore L.name L.parts ledger }
{
    match open::<L, A>(alloc, ledger) {
        Some(_) => Returned::Plain,
        None => Returned::Memory,
    }
}

/// The same, with a ledger of its own.
fn opens_anew(heap: &Refusing<Global>) -> Returned {
    opens::<Brand, &Refusing<Global>>(heap, ledger())
}

#[test]
fn opening(rt: HostRuntime) -> Result<(), Fail> {
    equal(runs_refused(rt.alloc(), opens_anew), Ok(13))
}

/// Whether two gates can be claimed and put back, and the tallies add up to nothing.
fn claims_and_settles<L: Ledger, A: Allocator>(
    store: &mut Store<L, A>,
    tallies: &mut Vec<Tally<L>>,
) -> bool {
    let claimed = store.claim_some(&mut Batch::new());
    (claimed, store.reopen()) == (2, 2) && store.settle(tallies) == Ok(0)
}

/// Deals a tally, claims, puts back, settles and then finishes all gates of the full adder over an opened store.
/// Returns whether that goes as it should.
fn works<L: Ledger, A: Allocator>(alloc: Global, store: &mut Store<L, A>) -> Option<bool> {
    let circuit = Circuit::read(alloc, FULL_ADDER.as_bytes()).ok()?;
    let mut tallies = Vec::new(alloc);
    tallies.push(store.tally()?).ok()?;
    let settles = claims_and_settles(store, &mut tallies);
    let mut tally = tallies.pop()?;
    finish_gates(store, &mut tally, 5)?;
    Some(settles && store.is_for(&circuit, &zero_seed()) && store.is_complete())
}

/// Whether an opened store that is worked on, and whose garbling is taken out, asks for no memory.
fn grows_nothing<L: Ledger>(heap: &Refusing<Global>, alloc: Global, ledger: Blank) -> Option<bool>
    requires { IsForStore L.name L.parts ledger }
{
    let mut store = open::<L, &Refusing<Global>>(heap, ledger)?;
    let opened = heap.growths();
    let works = works(alloc, &mut store)?;
    Some(works && store.into_garbling().is_ok() && heap.growths() == opened)
}

#[test]
fn an_opened_store_grows_nothing(rt: HostRuntime) -> Result<(), Fail> {
    let heap = Refusing::never(rt.alloc());
    equal(
        grows_nothing::<Brand>(&heap, rt.alloc(), ledger()),
        Some(true),
    )
}
