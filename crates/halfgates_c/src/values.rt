//! What a garbling has for the wires of a value, for its AND gates, and for its output wires, whose labels it opens.

ghost use Rattle.std.specs.Prelude.{◌≡◌, ◌≢◌, ◌*◌, length, flat_map, map, pos};
ghost use Rattle.core.specs.Ptr.{as_mut_ptr};
ghost use denote.RawPtr.{Testable};
ghost use Rattle.gc_netlist.specs.Spelling.{bit_number};
ghost use Rattle.gc_label.specs.Label.{bytes_of_label};
ghost use Rattle.gc_half.specs.Garbling.{decode_bits_of};
ghost use Rattle.gc_file.specs.GarbledFile.{row_bytes};
ghost use Rattle.gc_audit.specs.Labels.{first_wire_of};
ghost use Rattle.gc_kept.specs.Files.{IsFileAt, HasRoomFault};
ghost use Rattle.gc_kept.specs.Labels.{AreValueLabels, HasValueLabelsFault, first_output_of};
ghost use Rattle.gc_kept.specs.Opening.{AreOpened, HasOpenFault};
ghost use Rattle.gc_kept.specs.Ranges.{AreRowsAt, HasRangeFault};
ghost use Rattle.halfgates_c.specs.ReturnsCode.{ReturnsCode};
ghost use Rattle.halfgates_c.specs.Holding.{OfGarbling};

use crate::code::{NULL_POINTER, OK, code_of};
use crate::handle::{Handle, on_held};
use crate::null::is_null;

/// Writes the offset of a garbling.
#[unsafe(no_mangle)]
pub extern "C" fn halfgates_offset(garbling: &mut Handle, offset: &mut [u8; 16]) -> i32
    requires offset { Testable (as_mut_ptr offset) }
    ensures answer { OfGarbling garbling.old.held result
        (λ g. (result ≡ pos 0) × (offset.new ≡ bytes_of_label g.offset)) }
    ensures back { garbling.new ≡ garbling.old }
    ensures kept { result ≢ pos 0 → offset.new ≡ offset.old }
{
    if is_null(offset) {
        return NULL_POINTER;
    }
    on_held!(garbling, Garbling(garbling) => {
        *offset = garbling.offset();
        OK
    })
}

/// Writes both labels of each wire of an input value.
#[unsafe(no_mangle)]
pub extern "C" fn halfgates_input_labels(
    garbling: &mut Handle,
    index: u32,
    zero: &mut [u8],
    one: &mut [u8],
) -> i32
    ensures answer { OfGarbling garbling.old.held result (λ g.
        ReturnsCode result (AreValueLabels g g.circuit.input_widths index
        (first_wire_of g.circuit index) zero.old zero.new one.old one.new)
        (HasValueLabelsFault g.circuit.input_widths index (length zero.old) (length one.old))) }
    ensures back { garbling.new ≡ garbling.old }
    ensures zero_kept { result ≢ pos 0 → zero.new ≡ zero.old }
    ensures one_kept { result ≢ pos 0 → one.new ≡ one.old }
{
    on_held!(garbling, Garbling(garbling) => {
        code_of(garbling.input_labels(index, zero, one))
    })
}

/// Writes both labels of each wire of an output value.
#[unsafe(no_mangle)]
pub extern "C" fn halfgates_output_labels(
    garbling: &mut Handle,
    index: u32,
    zero: &mut [u8],
    one: &mut [u8],
) -> i32
    ensures answer { OfGarbling garbling.old.held result (λ g.
        ReturnsCode result (AreValueLabels g g.circuit.output_widths index
        (first_output_of g.circuit index) zero.old zero.new one.old one.new)
        (HasValueLabelsFault g.circuit.output_widths index (length zero.old) (length one.old))) }
    ensures back { garbling.new ≡ garbling.old }
    ensures zero_kept { result ≢ pos 0 → zero.new ≡ zero.old }
    ensures one_kept { result ≢ pos 0 → one.new ≡ one.old }
{
    on_held!(garbling, Garbling(garbling) => {
        code_of(garbling.output_labels(index, zero, one))
    })
}

/// Writes the row pairs of a garbling.
#[unsafe(no_mangle)]
pub extern "C" fn halfgates_rows(garbling: &mut Handle, rows: &mut [u8]) -> i32
    ensures answer { OfGarbling garbling.old.held result (λ g.
        ReturnsCode result (IsFileAt (flat_map row_bytes g.garbling.rows) rows.old rows.new)
        (HasRoomFault (32 * length g.garbling.rows) (length rows.old))) }
    ensures back { garbling.new ≡ garbling.old }
    ensures kept { result ≢ pos 0 → rows.new ≡ rows.old }
{
    on_held!(garbling, Garbling(garbling) => code_of(garbling.rows(rows)))
}

/// Writes the decode bits of a garbling.
#[unsafe(no_mangle)]
pub extern "C" fn halfgates_decode_bits(garbling: &mut Handle, bits: &mut [u8]) -> i32
    ensures answer { OfGarbling garbling.old.held result (λ g.
        ReturnsCode result (IsFileAt (map bit_number (decode_bits_of g.garbling)) bits.old bits.new)
        (HasRoomFault g.garbling.outputs (length bits.old))) }
    ensures back { garbling.new ≡ garbling.old }
    ensures kept { result ≢ pos 0 → bits.new ≡ bits.old }
{
    on_held!(garbling, Garbling(garbling) => {
        code_of(garbling.decode_bits(bits))
    })
}

/// Writes the row pairs of some AND gates of a garbling.
#[unsafe(no_mangle)]
pub extern "C" fn halfgates_rows_range(
    garbling: &mut Handle,
    from: u32,
    count: u32,
    rows: &mut [u8],
) -> i32
    ensures answer { OfGarbling garbling.old.held result (λ g.
        ReturnsCode result (AreRowsAt g from count rows.old rows.new)
        (HasRangeFault g from count (length rows.old))) }
    ensures back { garbling.new ≡ garbling.old }
    ensures kept { result ≢ pos 0 → rows.new ≡ rows.old }
{
    on_held!(garbling, Garbling(garbling) => {
        code_of(garbling.rows_range(from, count, rows))
    })
}

/// Opens labels of an output value, and writes the bits that they stand for.
#[unsafe(no_mangle)]
pub extern "C" fn halfgates_open(
    garbling: &mut Handle,
    index: u32,
    labels: &[u8],
    bits: &mut [u8],
) -> i32
    ensures answer { OfGarbling garbling.old.held result (λ g.
        ReturnsCode result (AreOpened g index labels.now bits.old bits.new)
        (HasOpenFault g index labels.now (length bits.old))) }
    ensures back { garbling.new ≡ garbling.old }
    ensures kept { result ≢ pos 0 → bits.new ≡ bits.old }
{
    on_held!(garbling, Garbling(garbling) => {
        code_of(garbling.open(index, labels, bits))
    })
}
