//! The AND numbers of a circuit's gates.

ghost use Rattle.std.specs.Prelude.{◌≡◌, ◌+◌, IfOk, MatchOption, cond, length, map, true};
ghost use Rattle.std.specs.List.{range_with_len};
ghost use Rattle.gc_netlist.specs.Circuit.{and_number, is_and};

use gc_circuit::{Circuit, Operation};
use std::alloc::{AllocError, Allocator};

/// For each gate, how many AND gates come before it in the file. It allocates once.
pub fn and_numbers<A: Allocator + Copy, C: Allocator>(
    alloc: A,
    circuit: &Circuit<C>,
) -> Result<Vec<u32, A>, AllocError>
    ensures { IfOk result (λ v. v.items
        ≡ map (and_number circuit.now) (range_with_len 0 (length circuit.now.gates))) }
{
    let mut numbers = Vec::with_capacity(alloc, circuit.gates() as usize)?;
    let mut next = 0u32;
    for i in 0..circuit.gates() {
        numbers.push(next)?;
        if circuit.gate(i).operation.is_and() {
            next += 1;
        }
    }
    Ok(numbers)
}

/// How many AND gates are left of a piece after an operation. None where the operation is AND and none is left.
#[inline(always)]
pub(crate) fn left_after(left: usize, operation: Operation) -> Option<usize>
    ensures { MatchOption result ((is_and operation ≡ true) × (left ≡ 0))
        (λ after. left ≡ after + cond (is_and operation) 1 0) }
{
    if !operation.is_and() {
        return Some(left);
    }
    left.checked_sub(1)
}
