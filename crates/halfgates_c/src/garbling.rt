//! Garblings.

ghost use Rattle.std.specs.Prelude.{◌≡◌, ◌≢◌, OnOk, OnErr, IfErr, pos};
ghost use Rattle.core.specs.Ptr.{as_ptr, as_mut_ptr};
ghost use denote.RawPtr.{Testable};
ghost use Rattle.gc_kept.specs.Garbling.{IsWantOfMemory};
ghost use Rattle.gc_kept.specs.Labels.{HasFromLabelsFault};
ghost use Rattle.gc_kept.specs.Wires.{IsZeroLabel, IsDecodeBit, HasNoWire, HasNoOutput};
ghost use Rattle.halfgates_c.specs.ReturnsCode.{ReturnsCode};
ghost use Rattle.halfgates_c.specs.Holding.{OfGarbling, OfKept};
ghost use Rattle.halfgates_c.specs.Reading.{HoldsGarbling, HoldsGarblingFrom};

use crate::code::{NULL_POINTER, code_of};
use crate::handle::{Handle, on_held};
use crate::null::is_null;
use crate::slot::Slot;
use gc_kept::{Held, KeptCircuit, KeptFault, StartBytes};
use std::alloc::Global;

/// Garbles a circuit under a seed.
#[unsafe(no_mangle)]
pub extern "C" fn halfgates_garble(
    alloc: Global,
    circuit: &mut Handle,
    seed: &[u8; 32],
    garbling: &mut Slot,
) -> i32
    requires seed { Testable (as_ptr seed) }
    requires garbling { Testable (as_mut_ptr garbling) }
    ensures answer { OfKept circuit.old.held result (λ c.
        ReturnsCode result (HoldsGarbling c seed.now garbling.new) IsWantOfMemory) }
    ensures back { circuit.new ≡ circuit.old }
    ensures kept { result ≢ pos 0 → garbling.new ≡ garbling.old }
{
    if is_null(seed) || is_null(garbling) {
        return NULL_POINTER;
    }
    on_held!(circuit, Circuit(circuit) => match circuit.garble(alloc, seed) {
        Ok(made) => code_of(garbling.hand_out(alloc, Held::Garbling(made))),
        Err(fault) => code_of(Err(fault)),
    })
}

/// Garbles a circuit from an offset and labels, and hands the garbling out.
fn garble_from(
    alloc: Global,
    circuit: &KeptCircuit,
    start: StartBytes<'_>,
    slot: &mut Slot,
) -> Result<(), KeptFault>
    ensures ok { OnOk result (HoldsGarblingFrom circuit.now
        start.entry.offset.now start.entry.zero_labels.now start.entry.first slot.new) }
    ensures fault { IfErr result (HasFromLabelsFault circuit.now.netlist
        start.entry.offset.now start.entry.zero_labels.now start.entry.first) }
    ensures kept { OnErr result (slot.new ≡ slot.old) }
{
    let garbling = circuit.garble_from(alloc, start)?;
    slot.hand_out(alloc, Held::Garbling(garbling))
}

/// Garbles a circuit from an offset, zero labels of the input wires, and the number of the first AND gate.
#[unsafe(no_mangle)]
pub extern "C" fn halfgates_garble_from(
    alloc: Global,
    circuit: &mut Handle,
    offset: &[u8; 16],
    zero_labels: &[u8],
    first: u64,
    garbling: &mut Slot,
) -> i32
    requires offset { Testable (as_ptr offset) }
    requires garbling { Testable (as_mut_ptr garbling) }
    ensures answer { OfKept circuit.old.held result (λ c.
        ReturnsCode result (HoldsGarblingFrom c offset.now zero_labels.now first garbling.new)
        (HasFromLabelsFault c.netlist offset.now zero_labels.now first)) }
    ensures back { circuit.new ≡ circuit.old }
    ensures kept { result ≢ pos 0 → garbling.new ≡ garbling.old }
{
    if is_null(offset) || is_null(garbling) {
        return NULL_POINTER;
    }
    let start = StartBytes {
        offset,
        zero_labels,
        first,
    };
    on_held!(circuit, Circuit(circuit) => {
        code_of(garble_from(alloc, circuit, start, garbling))
    })
}

/// Frees a garbling. Null is allowed.
#[unsafe(no_mangle)]
pub extern "C" fn halfgates_garbling_free(garbling: Slot) {
    drop(garbling);
}

/// Writes the zero label of a wire.
#[unsafe(no_mangle)]
pub extern "C" fn halfgates_zero_label(
    garbling: &mut Handle,
    wire: u32,
    label: &mut [u8; 16],
) -> i32
    requires label { Testable (as_mut_ptr label) }
    ensures answer { OfGarbling garbling.old.held result (λ g.
        ReturnsCode result (IsZeroLabel g wire label.new) (HasNoWire g wire)) }
    ensures back { garbling.new ≡ garbling.old }
    ensures kept { result ≢ pos 0 → label.new ≡ label.old }
{
    if is_null(label) {
        return NULL_POINTER;
    }
    on_held!(garbling, Garbling(garbling) => {
        code_of(garbling.zero_label(wire, label))
    })
}

/// Writes the decode bit of an output wire.
#[unsafe(no_mangle)]
pub extern "C" fn halfgates_decode_bit(garbling: &mut Handle, output: u32, bit: &mut u8) -> i32
    requires bit { Testable (as_mut_ptr bit) }
    ensures answer { OfGarbling garbling.old.held result (λ g.
        ReturnsCode result (IsDecodeBit g output bit.new) (HasNoOutput g output)) }
    ensures back { garbling.new ≡ garbling.old }
    ensures kept { result ≢ pos 0 → bit.new ≡ bit.old }
{
    if is_null(bit) {
        return NULL_POINTER;
    }
    on_held!(garbling, Garbling(garbling) => {
        code_of(garbling.decode_bit(output, bit))
    })
}
