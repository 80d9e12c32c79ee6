//! Whether several threads share a circuit, or one garbles or evaluates it in less time.

ghost use Rattle.std.specs.Prelude.{◌≡◌, ◌↔◌, ◌<◌, ◌≤◌, ◌⊎◌, IsTrue, Ok};
ghost use Rattle.gc_netlist.specs.Circuit.{and_count};
ghost use Rattle.gc_workers.specs.Way.{HasFewAnds};
ghost use Rattle.gc_workers.specs.declared.way.TheConstants.{ANDS_FOR_THREADS};
ghost use Rattle.gc_workers.specs.declared.way.Way.TheVariants.{Alone};

use gc_circuit::{Circuit, Memory, Operation};
use std::alloc::Allocator;

/// A circuit with fewer AND gates than this is left to one thread.
const ANDS_FOR_THREADS: u32 = 1024;

/// How threads garble or evaluate a circuit in the least time. Whatever the way, the result is the same.
#[derive(Clone, Copy, PartialEq, Eq, Debug)]
pub enum Way {
    /// One thread goes from gate to gate: others would cost more than they save.
    Alone,
    /// All go from gate to gate.
    Together,
}

/// The way that takes this many threads the least time. [`Way::Alone`] doesn't allocate for one thread, for a circuit
/// with few AND gates, and where more than a quarter of the gates are others. Else it allocates for a number for each
/// wire.
///
/// No clause says which of the two ways it is otherwise.
pub fn way_of<A: Allocator + Copy, C: Allocator>(
    alloc: A,
    circuit: &Circuit<C>,
    threads: u32,
) -> Result<Way, Memory>
    ensures { (threads ≤ 1) ⊎ (and_count circuit.now < ANDS_FOR_THREADS) ⊎ HasFewAnds circuit.now
        → result ≡ Ok Alone }
{
    if threads <= 1 || circuit.and_count() < ANDS_FOR_THREADS || has_few_ands(circuit) {
        return Ok(Way::Alone);
    }
    if has_free_shares(alloc, circuit, threads)? {
        Ok(Way::Together)
    } else {
        Ok(Way::Alone)
    }
}

/// Whether fewer than three quarters of the gates are AND.
fn has_few_ands<C: Allocator>(circuit: &Circuit<C>) -> bool
    ensures { IsTrue result ↔ HasFewAnds circuit.now }
{
    4 * u64::from(circuit.and_count()) < 3 * u64::from(circuit.gates())
}

/// Where each wire's value comes from, as far as shares of the file go: by wire, [`INPUT`], the share that gives it
/// from input wires alone, counted from 1, or [`SEVERAL`] shares.
#[derive(Drop)]
struct Sources<A: Allocator> {
    by_wire: Vec<u32, A>,
}

/// The source of an input wire.
const INPUT: u32 = 0;

/// The source of a wire whose value comes from several shares.
const SEVERAL: u32 = u32::MAX;

impl<A: Allocator> Sources<A> {
    /// Whether a share needs no other one for an operation.
    fn serve(&self, share: u32, operation: Operation) -> bool {
        self.serves(share, operation.first_wire()) && self.serves(share, operation.second_wire())
    }

    fn serves(&self, share: u32, wire: Option<u32>) -> bool {
        let source = wire.and_then(|wire| self.by_wire.get(wire as usize).copied());
        source.is_none_or(|source| source == INPUT || source == share)
    }

    fn set(&mut self, wire: u32, source: u32) {
        if let Some(of_wire) = self.by_wire.get_mut(wire as usize) {
            *of_wire = source;
        }
    }
}

/// Whether at least three gates in four need no gate of another share, of which each thread has one.
fn has_free_shares<A: Allocator + Copy, C: Allocator>(
    alloc: A,
    circuit: &Circuit<C>,
    threads: u32,
) -> Result<bool, Memory> {
    let gates_of_share = circuit.gates().div_ceil(threads.max(1)).max(1);
    let mut sources = Sources {
        by_wire: Vec::from_elem(alloc, INPUT, circuit.wires() as usize)?,
    };
    let mut bound = 0u32;
    for i in 0..circuit.gates() {
        let share = i / gates_of_share + 1;
        let gate = circuit.gate(i);
        if sources.serve(share, gate.operation) {
            sources.set(gate.set, share);
        } else {
            sources.set(gate.set, SEVERAL);
            bound = bound.saturating_add(1);
        }
    }
    Ok(bound <= circuit.gates() / 4)
}
