//! Tables of labels, which garbling and evaluating begin with.

ghost use Rattle.std.specs.Prelude.{◌≡◌, ◌<◌, ◌≤◌, ℕ, IfOk, OnOk, length, map, slice_index};
ghost use Rattle.std.specs.List.{range_with_len};
ghost use Rattle.gc_netlist.specs.Circuit.{input_wires};
ghost use Rattle.gc_netlist.specs.Solution.{put};
ghost use Rattle.gc_label.specs.Seed.{input_label_of};
ghost use Rattle.gc_half.specs.Canonical.{input_zero};

use gc_circuit::{Circuit, Memory};
use gc_label::{Label, Seed, fill_input_labels};
use std::alloc::Allocator;

/// How many entries of a table are written at once: few enough for the C library to write them by plain stores.
const STRETCH: u32 = 64;

/// The zero labels of the input wires under a seed, and 16 zero bytes for each other wire: the table that garbling
/// begins with. It allocates once, for all wires.
pub fn input_zero_labels<A: Allocator + Copy, C: Allocator>(
    alloc: A,
    circuit: &Circuit<C>,
    seed: &Seed,
) -> Result<Vec<Label, A>, Memory>
    ensures { IfOk result (λ v. v.items ≡
        map (input_zero circuit.now seed.now) (range_with_len 0 circuit.now.wires)) }
{
    let mut labels = labels_of_inputs(alloc, circuit, seed)?;
    labels.resize(circuit.wires() as usize, Label::ZERO)?;
    Ok(labels)
}

/// These labels of the input wires, zero labels or active ones, and 16 zero bytes for each other wire. It allocates
/// once, for all wires. The caller ensures that there are no more labels than wires.
pub fn padded_labels<A: Allocator + Copy>(
    alloc: A,
    wires: u32,
    inputs: &[Label],
) -> Result<Vec<Label, A>, Memory>
    requires { length inputs.now ≤ wires }
    ensures { IfOk result (λ v. v.items ≡ map (slice_index inputs.now) (range_with_len 0 wires)) }
{
    let mut labels = Vec::with_capacity(alloc, wires as usize)?;
    labels.extend_from_slice(inputs)?;
    labels.resize(wires as usize, Label::ZERO)?;
    Ok(labels)
}

/// The zero labels of the input wires under a seed, with room for those of all wires.
pub(crate) fn labels_of_inputs<A: Allocator + Copy, C: Allocator>(
    alloc: A,
    circuit: &Circuit<C>,
    seed: &Seed,
) -> Result<Vec<Label, A>, Memory>
    ensures { IfOk result (λ v. v.items ≡
        map (input_label_of seed.now) (range_with_len 0 (input_wires circuit.now))) }
{
    let mut labels = Vec::with_capacity(alloc, circuit.wires() as usize)?;
    labels.resize(circuit.input_wires() as usize, Label::ZERO)?;
    fill_input_labels(seed, 0, &mut labels);
    Ok(labels)
}

/// Lengthens a table, which is written as it is needed, to a wire that is beyond its end, and somewhat further: each
/// new entry is 16 zero bytes. Most circuits set their wires in order, so that an entry is zeroed shortly before it
/// is set, and is still in the cache then.
#[inline(never)]
pub(crate) fn lengthen<A: Allocator>(
    labels: &mut Vec<Label, A>,
    wires: u32,
    wire: u32,
) -> Result<(), Memory>
    requires wire { wire < wires }
    requires behind { length labels.old.items ≤ wire }
    ensures same { OnOk result ((w : ℕ) →
        slice_index labels.new.items w ≡ slice_index labels.old.items w) }
    ensures there { OnOk result (wire < length labels.new.items) }
    ensures kept { length labels.old.items ≤ length labels.new.items }
    ensures few { OnOk result (length labels.new.items ≤ wires) }
{
    let end = wire.saturating_add(STRETCH).min(wires);
    labels.resize(end as usize, Label::ZERO)?;
    Ok(())
}
