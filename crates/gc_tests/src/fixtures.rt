//! What several tests begin with: circuits, garbling them, and stores of the full adder.

ghost use Rattle.std.specs.Prelude.{◌≡◌};
ghost use Rattle.gc_store.specs.Account.{IsForStore};
ghost use Rattle.gc_workers.specs.declared.TheConstants.{MAX_WORKERS};

use gc_circuit::Circuit;
use gc_fixtures::circuits::{FULL_ADDER, NO_GATES, and_chains, many_ands, mixed_chains};
use gc_fixtures::files::zero_seed;
use gc_store::{Sealed, Store, Tally};
use gc_work::garble;
use gc_workers::{Gatehouse, MAX_WORKERS};
use std::alloc::{Allocator, Global};
use std::hint::spin_loop;
use std::sync::Wait;
use std::sync::ledger::{Blank, Ledger};
use std::test::Fail;
use std::thread::Threads;

/// A circuit that tests garble.
#[derive(Clone, Copy, PartialEq, Eq, Debug)]
pub(crate) enum Shape {
    /// No gates.
    Empty,
    /// The full adder.
    Adder,
    /// This many AND gates, none of which reads what another sets.
    Ands(u32),
    /// This many chains of AND gates, each of this length.
    Chains(u32, u32),
    /// This many chains, each of this length, in which three gates in four are AND.
    Mixed(u32, u32),
}

/// The text of a circuit of this shape.
fn text_of(alloc: Global, shape: Shape) -> Result<String, Fail> {
    let text = match shape {
        Shape::Empty => String::from_str(alloc, NO_GATES)?,
        Shape::Adder => String::from_str(alloc, FULL_ADDER)?,
        Shape::Ands(gates) => many_ands(alloc, gates)?,
        Shape::Chains(chains, length) => and_chains(alloc, chains, length)?,
        Shape::Mixed(chains, length) => mixed_chains(alloc, chains, length)?,
    };
    Ok(text)
}

/// The circuit of this shape.
pub(crate) fn circuit_of(alloc: Global, shape: Shape) -> Result<Circuit, Fail> {
    read(alloc, text_of(alloc, shape)?.as_str())
}

/// The circuit of this text.
pub(crate) fn read(alloc: Global, text: &str) -> Result<Circuit, Fail> {
    Ok(Circuit::read(alloc, text.as_bytes())?)
}

/// Has this many workers garble a circuit of this shape.
pub(crate) fn garble_by<H: Gatehouse + Sync, R: AllocGlobal + Threads + Wait + Sync>(
    rt: &R,
    shape: Shape,
    workers: u32,
    observer: &H,
) -> Result<(), Fail> {
    let circuit = circuit_of(rt.alloc(), shape)?;
    garble(rt, rt.alloc(), &circuit, &zero_seed(), workers, observer)?;
    Ok(())
}

/// What begins the ledger of a store.
pub(crate) fn ledger() -> Blank
    ensures { result.parts ≡ MAX_WORKERS }
{
    Blank::new(u64::from(MAX_WORKERS))
}

/// A store of the full adder under the seed of 32 zero bytes.
pub(crate) fn open<L: Ledger, A: Allocator + Copy>(alloc: A, ledger: Blank) -> Option<Store<L, A>>
    requires { IsForStore L.name L.parts ledger }
{
    let circuit = Circuit::read(alloc, FULL_ADDER.as_bytes()).ok()?;
    Store::<L, A>::open(alloc, ledger, circuit, zero_seed()).ok()
}

/// Claims and finishes this many gates, one after another. None: one isn't ready, or is refused.
pub(crate) fn finish_gates<L: Ledger, A: Allocator>(
    store: &mut Store<L, A>,
    tally: &mut Tally<L>,
    gates: u32,
) -> Option<()> {
    for _gate in 0..gates {
        let task = store.claim()?;
        store.finish(Sealed::make(task), tally).ok()?;
    }
    Some(())
}

/// Leaves other threads the time to find nothing to do, and to fall asleep.
pub(crate) fn pause() {
    for _turn in 0..2_000_000 {
        spin_loop();
    }
}
