//! Garbling in pieces.

ghost use Rattle.std.specs.Prelude.{◌≡◌, ◌≢◌, Some, OnOk, OnErr, IfErr, length, pos};
ghost use Rattle.core.specs.Ptr.{as_ptr, as_mut_ptr};
ghost use denote.RawPtr.{Testable};
ghost use Rattle.gc_label.specs.Label.{bytes_of_label};
ghost use Rattle.gc_kept.specs.Garbling.{IsWantOfMemory};
ghost use Rattle.gc_kept.specs.Garbler.{IsNextPiece, HasPieceFault, AreGivenLabels, AreMadeLabels, HasMadeLabelsFault, AreMadeBits, HasMadeBitsFault};
ghost use Rattle.gc_kept.specs.Labels.{HasFromLabelsFault, HasValueLabelsFault};
ghost use Rattle.halfgates_c.specs.ReturnsCode.{ReturnsCode};
ghost use Rattle.halfgates_c.specs.Holding.{OfCircuit, OfGarbler};
ghost use Rattle.halfgates_c.specs.InProgress.{HoldsBegunUnder, HoldsBegunFrom, HoldsNext};

use crate::code::{NULL_POINTER, OK, WRONG_HANDLE, code_of};
use crate::handle::{Handle, on_held};
use crate::null::is_null;
use crate::slot::Slot;
use gc_kept::{Held, KeptCircuit, KeptFault, KeptGarbler, StartBytes};
use std::alloc::Global;

/// Begins to garble a circuit under a seed.
#[unsafe(no_mangle)]
pub extern "C" fn halfgates_garbler_begin(
    alloc: Global,
    circuit: &mut Handle,
    seed: &[u8; 32],
    garbler: &mut Slot,
) -> i32
    requires seed { Testable (as_ptr seed) }
    requires garbler { Testable (as_mut_ptr garbler) }
    ensures answer { OfCircuit circuit.old.held result (λ c.
        ReturnsCode result (HoldsBegunUnder c seed.now garbler.new) IsWantOfMemory) }
    ensures back { circuit.new ≡ circuit.old }
    ensures kept { result ≢ pos 0 → garbler.new ≡ garbler.old }
{
    if is_null(seed) || is_null(garbler) {
        return NULL_POINTER;
    }
    on_held!(circuit, Circuit(circuit) => match circuit.begin_garbling(alloc, seed) {
        Ok(made) => code_of(garbler.hand_out(alloc, Held::Garbler(made))),
        Err(fault) => code_of(Err(fault)),
    })
}

/// Begins to garble a circuit from an offset and labels, and hands the garbler out.
fn begin_from(
    alloc: Global,
    circuit: &KeptCircuit,
    start: StartBytes<'_>,
    slot: &mut Slot,
) -> Result<(), KeptFault>
    ensures ok { OnOk result (HoldsBegunFrom circuit.now.netlist
        start.entry.offset.now start.entry.zero_labels.now start.entry.first slot.new) }
    ensures fault { IfErr result (HasFromLabelsFault circuit.now.netlist
        start.entry.offset.now start.entry.zero_labels.now start.entry.first) }
    ensures kept { OnErr result (slot.new ≡ slot.old) }
{
    let garbler = circuit.begin_garbling_from(alloc, start)?;
    slot.hand_out(alloc, Held::Garbler(garbler))
}

/// Begins to garble a circuit from an offset, zero labels of the input wires, and the number of the first AND gate.
#[unsafe(no_mangle)]
pub extern "C" fn halfgates_garbler_begin_from(
    alloc: Global,
    circuit: &mut Handle,
    offset: &[u8; 16],
    zero_labels: &[u8],
    first: u64,
    garbler: &mut Slot,
) -> i32
    requires offset { Testable (as_ptr offset) }
    requires garbler { Testable (as_mut_ptr garbler) }
    ensures answer { OfCircuit circuit.old.held result (λ c.
        ReturnsCode result (HoldsBegunFrom c offset.now zero_labels.now first garbler.new)
        (HasFromLabelsFault c offset.now zero_labels.now first)) }
    ensures back { circuit.new ≡ circuit.old }
    ensures kept { result ≢ pos 0 → garbler.new ≡ garbler.old }
{
    if is_null(offset) || is_null(garbler) {
        return NULL_POINTER;
    }
    let start = StartBytes {
        offset,
        zero_labels,
        first,
    };
    on_held!(circuit, Circuit(circuit) => {
        code_of(begin_from(alloc, circuit, start, garbler))
    })
}

/// Frees a garbler. Null is allowed.
#[unsafe(no_mangle)]
pub extern "C" fn halfgates_garbler_free(garbler: Slot) {
    drop(garbler);
}

/// Writes the offset of a garbler.
#[unsafe(no_mangle)]
pub extern "C" fn halfgates_garbler_offset(garbler: &mut Handle, offset: &mut [u8; 16]) -> i32
    requires offset { Testable (as_mut_ptr offset) }
    ensures answer { OfGarbler garbler.old.held result
        (λ g. (result ≡ pos 0) × (offset.new ≡ bytes_of_label g.garbler.offset)) }
    ensures back { garbler.new ≡ garbler.old }
    ensures kept { result ≢ pos 0 → offset.new ≡ offset.old }
{
    if is_null(offset) {
        return NULL_POINTER;
    }
    on_held!(garbler, Garbler(garbler) => {
        *offset = garbler.offset();
        OK
    })
}

/// Writes both labels of each wire of an input value.
#[unsafe(no_mangle)]
pub extern "C" fn halfgates_garbler_input_labels(
    garbler: &mut Handle,
    index: u32,
    zero: &mut [u8],
    one: &mut [u8],
) -> i32
    ensures answer { OfGarbler garbler.old.held result (λ g.
        ReturnsCode result (AreGivenLabels g index zero.old zero.new one.old one.new)
        (HasValueLabelsFault g.circuit.input_widths index (length zero.old) (length one.old))) }
    ensures back { garbler.new ≡ garbler.old }
    ensures zero_kept { result ≢ pos 0 → zero.new ≡ zero.old }
    ensures one_kept { result ≢ pos 0 → one.new ≡ one.old }
{
    on_held!(garbler, Garbler(garbler) => {
        code_of(garbler.input_labels(index, zero, one))
    })
}

/// Writes the next row pairs of a garbler, and how many bytes they have.
fn next(garbler: &mut KeptGarbler, rows: &mut [u8], written: &mut usize) -> Result<(), KeptFault>
    ensures ok { OnOk result
        (IsNextPiece garbler.old garbler.new rows.old rows.new written.new) }
    ensures fault { IfErr result (HasPieceFault garbler.old (length rows.old)) }
    ensures kept { OnErr result (garbler.new ≡ garbler.old) }
    ensures unwritten { OnErr result (rows.new ≡ rows.old) }
    ensures unreported { OnErr result (written.new ≡ written.old) }
{
    *written = garbler.next(rows)?;
    Ok(())
}

/// Writes the next row pairs of what is held, if it is a garbler.
fn next_of(held: &mut Held, rows: &mut [u8], written: &mut usize) -> i32
    ensures answer { OfGarbler (Some held.old) result (λ g. ReturnsCode result
        (HoldsNext g (Some held.new) rows.old rows.new written.new)
        (HasPieceFault g (length rows.old))) }
    ensures kept { result ≢ pos 0 → held.new ≡ held.old }
    ensures unwritten { result ≢ pos 0 → rows.new ≡ rows.old }
    ensures unreported { result ≢ pos 0 → written.new ≡ written.old }
{
    match held {
        Held::Garbler(garbler) => code_of(next(garbler, rows, written)),
        _ => WRONG_HANDLE,
    }
}

/// Garbles on, and writes the row pairs that are made.
#[unsafe(no_mangle)]
pub extern "C" fn halfgates_garbler_next(
    alloc: Global,
    garbler: &mut Slot,
    rows: &mut [u8],
    written: &mut usize,
) -> i32
    requires written { Testable (as_mut_ptr written) }
    ensures answer { OfGarbler garbler.old.held result (λ g.
        ReturnsCode result (HoldsNext g garbler.new.held rows.old rows.new written.new)
        (HasPieceFault g (length rows.old))) }
    ensures kept { result ≢ pos 0 → garbler.new.held ≡ garbler.old.held }
    ensures unwritten { result ≢ pos 0 → rows.new ≡ rows.old }
    ensures unreported { result ≢ pos 0 → written.new ≡ written.old }
{
    if is_null(written) {
        return NULL_POINTER;
    }
    let Some(mut held) = garbler.take(alloc) else {
        return NULL_POINTER;
    };
    let code = next_of(&mut held, rows, written);
    garbler.put(held);
    code
}

/// Writes both labels of each wire of an output value, once all row pairs are made.
#[unsafe(no_mangle)]
pub extern "C" fn halfgates_garbler_output_labels(
    garbler: &mut Handle,
    index: u32,
    zero: &mut [u8],
    one: &mut [u8],
) -> i32
    ensures answer { OfGarbler garbler.old.held result (λ g.
        ReturnsCode result (AreMadeLabels g index zero.old zero.new one.old one.new)
        (HasMadeLabelsFault g index (length zero.old) (length one.old))) }
    ensures back { garbler.new ≡ garbler.old }
    ensures zero_kept { result ≢ pos 0 → zero.new ≡ zero.old }
    ensures one_kept { result ≢ pos 0 → one.new ≡ one.old }
{
    on_held!(garbler, Garbler(garbler) => {
        code_of(garbler.output_labels(index, zero, one))
    })
}

/// Writes the decode bits, once all row pairs are made.
#[unsafe(no_mangle)]
pub extern "C" fn halfgates_garbler_decode_bits(garbler: &mut Handle, bits: &mut [u8]) -> i32
    ensures answer { OfGarbler garbler.old.held result (λ g.
        ReturnsCode result (AreMadeBits g bits.old bits.new)
        (HasMadeBitsFault g (length bits.old))) }
    ensures back { garbler.new ≡ garbler.old }
    ensures kept { result ≢ pos 0 → bits.new ≡ bits.old }
{
    on_held!(garbler, Garbler(garbler) => {
        code_of(garbler.decode_bits(bits))
    })
}
