//! The tables that a store begins with.

ghost use Rattle.std.specs.Prelude.{◌≡◌, ◌≤◌, IfOk, length, map, replicate};
ghost use Rattle.std.specs.List.{range_with_len};
ghost use Rattle.gc_store.specs.Readers.{unknown_reads};
ghost use Rattle.gc_store.specs.Opening.{is_below, opening_countdown};

use gc_circuit::{Circuit, Memory, Operation};
use std::alloc::Allocator;

/// A vector of one value, `len` times.
pub(crate) fn repeated<T: Copy, A: Allocator + Copy>(
    alloc: A,
    value: T,
    len: u32,
) -> Result<Vec<T, A>, Memory>
    ensures { IfOk result (λ v. v.items ≡ replicate len value) }
{
    let mut items = Vec::with_capacity(alloc, len as usize)?;
    items.resize(len as usize, value)?;
    Ok(items)
}

/// For each gate, one more than the number of its reads of wires that are no input wires.
pub fn opening_countdowns<A: Allocator + Copy, C: Allocator>(
    alloc: A,
    circuit: &Circuit<C>,
) -> Result<Vec<u8, A>, Memory>
    ensures { IfOk result (λ v. v.items ≡
        map (opening_countdown circuit.now) (range_with_len 0 (length circuit.now.gates))) }
{
    let inputs = circuit.input_wires();
    let mut countdowns = Vec::with_capacity(alloc, circuit.gates() as usize)?;
    for i in 0..circuit.gates() {
        countdowns.push(1 + reads_past(circuit.gate(i).operation, inputs))?;
    }
    Ok(countdowns)
}

/// How many reads of an operation are of wires from wire `inputs` on.
#[inline]
fn reads_past(operation: Operation, inputs: u32) -> u8
    ensures reads { result ≡ unknown_reads (is_below inputs) operation }
    ensures few { result ≤ 2 }
{
    match operation {
        Operation::Xor(a, b) => u8::from(a >= inputs) + u8::from(b >= inputs),
        Operation::And(a, b) => u8::from(a >= inputs) + u8::from(b >= inputs),
        Operation::Inv(a) => u8::from(a >= inputs),
        Operation::Eq(_) => 0,
        Operation::Eqw(a) => u8::from(a >= inputs),
    }
}
