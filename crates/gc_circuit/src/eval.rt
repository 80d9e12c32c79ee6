ghost use Rattle.std.specs.Prelude.{◌≡◌, ◌↔◌, ◌<◌, ◌≤◌, ℕ, Bool, length, map, flat_map, IsTrue, IfOk};
ghost use Rattle.gc_netlist.specs.Circuit.{Netlist, EachRead, IsLawful, input_wires};
ghost use Rattle.gc_circuit.specs.Meaning.{bit_of, bits_of, Fits, AreWireBits, AreOutputs, AssignmentLaw};

use crate::circuit::Circuit;
use crate::memory::Memory;
use gc_netlist::Operation;
use std::alloc::Allocator;

/// Whether there are as many values as the circuit has input values, each of that value's width.
pub fn fits<A: Allocator, V: Allocator>(circuit: &Circuit<A>, values: &[Vec<bool, V>]) -> bool
    ensures { IsTrue result ↔ Fits circuit.now (map (λ v. v.items) values.now) }
{
    let widths = circuit.input_widths();
    if values.len() != widths.len() {
        return false;
    }
    for (i, value) in values.iter().enumerate() {
        if value.len() != widths[i] as usize {
            return false;
        }
    }
    true
}

/// The law of assignments: for any lawful circuit and input bits there is one, and it is the only one on the
/// wires that are set.
pub fn law_assignments()
    ensures { (c : Netlist) → IsLawful c → (x : ℕ → Bool) → AssignmentLaw c x }
{}

/// The bit of the wire that an operation sets, from the bits on the wires.
fn operation_bit(bits: &[bool], operation: Operation) -> bool
    requires { EachRead (λ w. w < length bits.now) operation }
    ensures { result ≡ bit_of (bits_of bits.now) operation }
{
    match operation {
        // In one arm, so that the processor needn't guess which of the two comes next.
        Operation::Xor(a, b) | Operation::And(a, b) => {
            let (first, second) = (bits[a as usize], bits[b as usize]);
            if operation.is_and() {
                first & second
            } else {
                first ^ second
            }
        }
        Operation::Inv(a) => !bits[a as usize],
        Operation::Eq(bit) => bit,
        Operation::Eqw(a) => bits[a as usize],
    }
}

/// The bits of the input wires, with room for those of all wires.
fn input_bits<A: Allocator + Copy, C: Allocator, V: Allocator>(
    alloc: A,
    circuit: &Circuit<C>,
    values: &[Vec<bool, V>],
) -> Result<Vec<bool, A>, Memory>
    ensures { IfOk result (λ v. v.items ≡ flat_map (λ x. x.items) values.now) }
{
    let mut bits = Vec::with_capacity(alloc, circuit.wires() as usize)?;
    for value in values {
        bits.extend_from_slice(value)?;
    }
    Ok(bits)
}

/// The bits on all wires, in order, for these input values; false on a wire that is not set. It grows once. The caller
/// ensures that the values fit the circuit (`fits`).
#[tactic(auto, using(std::proofs::lemmas::Grind::common_steps, crate::proofs::BitLemmas::bits_start, crate::proofs::BitLemmas::bits_more, crate::proofs::BitLemmas::bits_end, crate::proofs::BitLemmas::length_joined))]
pub fn wire_bits<A: Allocator + Copy, C: Allocator, V: Allocator>(
    alloc: A,
    circuit: &Circuit<C>,
    values: &[Vec<bool, V>],
) -> Result<Vec<bool, A>, Memory>
    requires { Fits circuit.now (map (λ v. v.items) values.now) }
    ensures { IfOk result (λ v.
        AreWireBits circuit.now (flat_map (λ x. x.items) values.now) v.items) }
{
    let mut bits = input_bits(alloc, circuit, values)?;
    bits.resize(circuit.wires() as usize, false)?;
    for i in 0..circuit.gates() {
        let gate = circuit.gate(i);
        bits[gate.set as usize] = operation_bit(&bits, gate.operation);
    }
    Ok(bits)
}

/// The bits on the output wires, in order, for these input values: plain evaluation. The caller ensures that the values
/// fit the circuit (`fits`).
pub fn plain_eval<A: Allocator + Copy, C: Allocator, V: Allocator>(
    alloc: A,
    circuit: &Circuit<C>,
    values: &[Vec<bool, V>],
) -> Result<Vec<bool, A>, Memory>
    requires { Fits circuit.now (map (λ v. v.items) values.now) }
    ensures { IfOk result (λ v.
        AreOutputs circuit.now (flat_map (λ x. x.items) values.now) v.items) }
{
    let bits = wire_bits(alloc, circuit, values)?;
    let first = circuit.wires() - circuit.output_wires();
    let (_, last) = bits.split_at(first as usize);
    Ok(Vec::from_slice(alloc, last)?)
}
