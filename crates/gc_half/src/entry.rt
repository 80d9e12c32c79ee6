//! Entries, by which an output label is recognised.

ghost use Rattle.std.specs.Prelude.{◌≡◌, ◌<◌, ◌≤◌, ◌+◌, ◌-◌, ◌∷◌, [], true, false, length, map, slice_index};
ghost use Rattle.std.specs.List.{range_with_len};
ghost use Rattle.gc_netlist.specs.Circuit.{output_wires};
ghost use Rattle.gc_label.specs.Label.{colour};
ghost use Rattle.gc_half.specs.Garbling.{FitsCircuit};
ghost use Rattle.gc_half.specs.Hash.{hash};
ghost use Rattle.gc_half.specs.Entry.{label_of_colour, entry_of, entries_of, output_tweak};

use crate::garbling::Garbling;
use crate::hash::{tweak_hash, tweak_hash_eight};
use gc_circuit::Circuit;
use gc_label::{Label, Offset};
use std::alloc::Allocator;

/// Entry `s` of output i, counted from 0: the hash of that one of the output wire's two labels whose colour is `s`,
/// under the tweak 2A + i, where A is the number of AND gates. It doesn't allocate. The caller ensures that the
/// garbling fits the circuit and that there is such an output.
pub fn output_entry<A: Allocator, B: Allocator>(
    circuit: &Circuit<A>,
    garbling: &Garbling<B>,
    offset: Offset,
    i: u32,
    s: bool,
) -> Label
    requires fits { FitsCircuit circuit.now garbling.now }
    requires output { i < output_wires circuit.now }
    ensures { result ≡ entry_of offset garbling.now i s }
{
    let (zero_label, tweak) = of_output(circuit, garbling, i);
    tweak_hash(label_of_colour(offset, zero_label, s), tweak)
}

/// The entries 0 and 1 of four outputs, from output `first` on, each as [`output_entry`] gives it. They are hashed at
/// once. The caller ensures that the garbling fits the circuit and that there are such outputs.
pub fn four_output_entries<A: Allocator, B: Allocator>(
    circuit: &Circuit<A>,
    garbling: &Garbling<B>,
    offset: Offset,
    first: u32,
) -> [(Label, Label); 4]
    requires fits { FitsCircuit circuit.now garbling.now }
    requires outputs { first + 4 ≤ output_wires circuit.now }
    ensures { result ≡ map (entries_of offset garbling.now) (range_with_len first 4) }
{
    circuit.law_lawful();
    let (two, others) = tweak_hash_eight(
        hashed_of_two(circuit, garbling, offset, first),
        hashed_of_two(circuit, garbling, offset, first + 2),
    );
    let [a_zero, a_one, b_zero, b_one] = two;
    let [c_zero, c_one, d_zero, d_one] = others;
    [
        (a_zero, a_one),
        (b_zero, b_one),
        (c_zero, c_one),
        (d_zero, d_one),
    ]
}

/// What the entries of two outputs hash, output i and the one after it.
#[inline]
fn hashed_of_two<A: Allocator, B: Allocator>(
    circuit: &Circuit<A>,
    garbling: &Garbling<B>,
    offset: Offset,
    i: u32,
) -> [(Label, u64); 4]
    requires fits { FitsCircuit circuit.now garbling.now }
    requires outputs { i + 2 ≤ output_wires circuit.now }
    ensures { map (λ input. hash input.0 input.1) result
        ≡ entry_of offset garbling.now i false ∷ entry_of offset garbling.now i true
        ∷ entry_of offset garbling.now (i + 1) false
        ∷ entry_of offset garbling.now (i + 1) true ∷ [] }
{
    circuit.law_lawful();
    let (one, one_tweak) = of_output(circuit, garbling, i);
    let (other, other_tweak) = of_output(circuit, garbling, i + 1);
    [
        (label_of_colour(offset, one, false), one_tweak),
        (label_of_colour(offset, one, true), one_tweak),
        (label_of_colour(offset, other, false), other_tweak),
        (label_of_colour(offset, other, true), other_tweak),
    ]
}

/// The zero label of output i, and its tweak.
#[tactic(auto, using(crate::proofs::EntryLemmas::entries))]
#[inline]
fn of_output<A: Allocator, B: Allocator>(
    circuit: &Circuit<A>,
    garbling: &Garbling<B>,
    i: u32,
) -> (Label, u64)
    requires fits { FitsCircuit circuit.now garbling.now }
    requires output { i < output_wires circuit.now }
    ensures zero_label { result.0 ≡ slice_index garbling.now.zero_labels
        (length garbling.now.zero_labels - garbling.now.outputs + i) }
    ensures tweak { result.1 ≡ output_tweak (length garbling.now.rows) i }
{
    let first = circuit.wires() - circuit.output_wires();
    let zero_label = garbling.zero_label(first + i);
    let tweak = 2 * u64::from(circuit.and_count()) + u64::from(i);
    (zero_label, tweak)
}

/// That one of a wire's two labels whose colour is `s`.
#[tactic(auto, using(crate::proofs::EntryLemmas::entries))]
#[inline]
fn label_of_colour(offset: Offset, zero_label: Label, s: bool) -> Label
    ensures label { result ≡ label_of_colour offset zero_label s }
    ensures coloured { colour result ≡ s }
{
    zero_label.xor(offset.label().times(zero_label.colour() != s))
}
