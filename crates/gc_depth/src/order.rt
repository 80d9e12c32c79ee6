ghost use Rattle.std.specs.Prelude.{IfOk};
ghost use Rattle.gc_depth.specs.Depth.{IsByDepth};
ghost use Rattle.gc_depth.specs.Order.{IsReordering, IsSortedByRank, ComputesSame};

use crate::place::sorted;
use crate::ranks::ranks_of;
use gc_circuit::{Circuit, Memory};
use std::alloc::Allocator;

/// The circuit with its gates in order of AND depth: the gates that set wires of one depth follow one another, its AND
/// gates first, each kind in file order. It has the same gates, wires and widths, and computes the same.
pub fn order_by_depth<A: Allocator + Copy, C: Allocator>(
    alloc: A,
    circuit: &Circuit<C>,
) -> Result<Circuit<A>, Memory>
    ensures reordering { IfOk result (IsReordering circuit.now) }
    ensures by_depth { IfOk result IsByDepth }
    ensures exactly { IfOk result (IsSortedByRank circuit.now) }
    ensures same { IfOk result (ComputesSame circuit.now) }
{
    circuit.law_lawful();
    let ranks = ranks_of(alloc, circuit)?;
    let gates = sorted(alloc, circuit, &ranks.of_gates, ranks.end)?;
    circuit.with_gates(alloc, gates)
}
