//! The ranks of a circuit's gates.

ghost use Rattle.std.specs.Prelude.{◌≡◌, ◌<◌, ◌≤◌, ◌^◌, ℕ, IfOk, length, map, replicate, slice_index};
ghost use Rattle.std.specs.List.{All};
ghost use Rattle.gc_netlist.specs.Circuit.{EachRead};
ghost use Rattle.gc_depth.specs.Depth.{and_depth_of, rank_in};

use gc_circuit::{Circuit, Memory, Operation};
use std::alloc::Allocator;

/// The rank of each gate, and a number that all of them are below.
#[derive(Drop)]
pub(crate) struct Ranks<A: Allocator> {
    pub(crate) of_gates: Vec<u32, A>,
    pub(crate) end: u32,
}

/// A vector of one value, `len` times.
pub(crate) fn repeated<T: Copy, A: Allocator + Copy>(
    alloc: A,
    value: T,
    len: u32,
) -> Result<Vec<T, A>, Memory>
    ensures { IfOk result (λ v. v.items ≡ replicate len value) }
{
    let mut items = Vec::with_capacity(alloc, len as usize)?;
    items.resize(len as usize, value)?;
    Ok(items)
}

/// The AND depth of the wire that an operation sets, from a table of those of all wires.
#[inline]
fn and_depth(depths: &[u32], operation: Operation) -> u32
    requires wires { EachRead (λ w. w < length depths.now) operation }
    requires shallow { (w : ℕ) → slice_index depths.now w < 2 ^ 31 }
    ensures { result ≡ and_depth_of (slice_index depths.now) operation }
{
    match operation {
        Operation::Xor(a, b) => depths[a as usize].max(depths[b as usize]),
        Operation::And(a, b) => depths[a as usize].max(depths[b as usize]) + 1,
        Operation::Inv(a) | Operation::Eqw(a) => depths[a as usize],
        Operation::Eq(_) => 0,
    }
}

/// The ranks of a circuit's gates.
pub(crate) fn ranks_of<A: Allocator + Copy, C: Allocator>(
    alloc: A,
    circuit: &Circuit<C>,
) -> Result<Ranks<A>, Memory>
    ensures ranks { IfOk result
        (λ r. r.of_gates.items ≡ map (rank_in circuit.now) circuit.now.gates) }
    ensures below { IfOk result (λ r. All (λ k. k < r.end) r.of_gates.items) }
    ensures few { IfOk result (λ r. r.end < 2 ^ 32) }
{
    let mut depths = repeated(alloc, 0, circuit.wires())?;
    let mut of_gates = Vec::with_capacity(alloc, circuit.gates() as usize)?;
    let mut end = 0;
    for i in 0..circuit.gates() {
        let gate = circuit.gate(i);
        let depth = and_depth(&depths, gate.operation);
        let rank = 2 * depth + u32::from(!gate.operation.is_and());
        depths[gate.set as usize] = depth;
        end = end.max(rank + 1);
        of_gates.push(rank)?;
    }
    Ok(Ranks { of_gates, end })
}
