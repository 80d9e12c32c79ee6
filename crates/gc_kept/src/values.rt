//! What a garbling has for the wires of a value, for its AND gates, and for its output wires.

ghost use Rattle.std.specs.Prelude.{◌≡◌, ◌+◌, ◌-◌, ◌*◌, ◌<◌, ◌≤◌, length, map, flat_map, slice_get, Some, IfErr, OnOk, OnErr};
ghost use Rattle.gc_netlist.specs.Circuit.{output_wires};
ghost use Rattle.gc_netlist.specs.Spelling.{bit_number};
ghost use Rattle.gc_half.specs.Garbling.{decode_bits_of};
ghost use Rattle.gc_file.specs.GarbledFile.{row_bytes};
ghost use Rattle.gc_audit.specs.Labels.{first_wire_of};
ghost use Rattle.gc_kept.specs.Files.{IsFileAt, HasRoomFault};
ghost use Rattle.gc_kept.specs.Labels.{AreValueLabels, HasValueLabelsFault, first_output_of, zero_labels_from};
ghost use Rattle.gc_kept.specs.Ranges.{AreRowsAt, HasRangeFault};

use crate::bits::bit_byte;
use crate::both::{labels_of, write_both};
use crate::fault::KeptFault;
use crate::garbling::KeptGarbling;
use crate::label_bytes::write_rows;
use crate::room::has_room;
use gc_circuit::Circuit;
use gc_file::sizes::PAIR;
use gc_file::{first_wire, sum_of};
use gc_label::Label;
use std::alloc::Allocator;

/// The first wire of the output value with this index. The caller ensures that there are at least as many values.
fn first_output<A: Allocator>(circuit: &Circuit<A>, index: usize) -> u32
    requires { index ≤ length circuit.now.output_widths }
    ensures { result ≡ first_output_of circuit.now index }
{
    circuit.law_lawful();
    circuit.wires() - circuit.output_wires() + sum_of(&circuit.output_widths()[..index])
}

impl KeptGarbling {
    /// Writes both labels of each wire of the input value with this index, 16 bytes each, to the front of two buffers:
    /// the zero labels, and the labels that stand for 1. It refuses an index without a value (42), and a buffer that is
    /// too small (61).
    pub fn input_labels(&self, index: u32, zero: &mut [u8], one: &mut [u8]) -> Result<(), KeptFault>
        ensures ok { OnOk result (AreValueLabels self.now self.now.circuit.input_widths index
            (first_wire_of self.now.circuit index) zero.old zero.new one.old one.new) }
        ensures fault { IfErr result (HasValueLabelsFault self.now.circuit.input_widths index
            (length zero.old) (length one.old)) }
        ensures zero_unwritten { OnErr result (zero.new ≡ zero.old) }
        ensures one_unwritten { OnErr result (one.new ≡ one.old) }
    {
        let width = self.circuit().input_width(index)?;
        write_both(self.input_zero_labels(index, width), self.offset, zero, one)
    }

    /// Writes both labels of each wire of the output value with this index, as [`KeptGarbling::input_labels`] does
    /// those of an input value.
    pub fn output_labels(
        &self,
        index: u32,
        zero: &mut [u8],
        one: &mut [u8],
    ) -> Result<(), KeptFault>
        ensures ok { OnOk result (AreValueLabels self.now self.now.circuit.output_widths index
            (first_output_of self.now.circuit index) zero.old zero.new one.old one.new) }
        ensures fault { IfErr result (HasValueLabelsFault self.now.circuit.output_widths index
            (length zero.old) (length one.old)) }
        ensures zero_unwritten { OnErr result (zero.new ≡ zero.old) }
        ensures one_unwritten { OnErr result (one.new ≡ one.old) }
    {
        let width = self.circuit().output_width(index)?;
        write_both(
            self.output_zero_labels(index, width),
            self.offset,
            zero,
            one,
        )
    }

    /// The zero labels of the input value with this index. The caller ensures that this is its width.
    pub(crate) fn input_zero_labels(&self, index: u32, width: usize) -> &[Label]
        requires { slice_get self.now.circuit.input_widths index ≡ Some width }
        ensures labels { result.now
            ≡ zero_labels_from self.now (first_wire_of self.now.circuit index) width }
        ensures count { length result.now ≡ width }
    {
        self.law_garbled();
        let from = first_wire(self.circuit().circuit(), index as usize) as usize;
        labels_of(self.garbling.zero_labels(), from, width)
    }

    /// The same of the output value with this index.
    pub(crate) fn output_zero_labels(&self, index: u32, width: usize) -> &[Label]
        requires { slice_get self.now.circuit.output_widths index ≡ Some width }
        ensures labels { result.now
            ≡ zero_labels_from self.now (first_output_of self.now.circuit index) width }
        ensures count { length result.now ≡ width }
    {
        self.law_garbled();
        let from = first_output(self.circuit().circuit(), index as usize) as usize;
        labels_of(self.garbling.zero_labels(), from, width)
    }

    /// Writes the row pairs, 32 bytes for each AND gate in file order, to the front of a buffer: the generator's row,
    /// and then the evaluator's. It refuses a buffer that is too small (61).
    pub fn rows(&self, buffer: &mut [u8]) -> Result<(), KeptFault>
        ensures ok { OnOk result
            (IsFileAt (flat_map row_bytes self.now.garbling.rows) buffer.old buffer.new) }
        ensures fault { IfErr result
            (HasRoomFault (32 * length self.now.garbling.rows) (length buffer.old)) }
        ensures unwritten { OnErr result (buffer.new ≡ buffer.old) }
    {
        self.law_garbled();
        self.rows_range(0, self.circuit.circuit().and_count(), buffer)
    }

    /// Writes the row pairs of `count` AND gates, from AND gate `from` on in file order, to the front of a buffer, 32
    /// bytes each. It refuses a range that isn't one of AND gates (60), and then a buffer that is too small (61).
    pub fn rows_range(&self, from: u32, count: u32, buffer: &mut [u8]) -> Result<(), KeptFault>
        ensures ok { OnOk result (AreRowsAt self.now from count buffer.old buffer.new) }
        ensures fault { IfErr result (HasRangeFault self.now from count (length buffer.old)) }
        ensures unwritten { OnErr result (buffer.new ≡ buffer.old) }
    {
        let (from, count) = (from as usize, count as usize);
        let Some(rows) = self.garbling.rows().get(from..from + count) else {
            return Err(KeptFault::BadArgument);
        };
        has_room(PAIR * count, buffer)?;
        write_rows(rows, buffer);
        Ok(())
    }

    /// Writes the decode bits, a byte for each output wire in order, to the front of a buffer. It refuses a buffer
    /// that is too small (61).
    pub fn decode_bits(&self, bits: &mut [u8]) -> Result<(), KeptFault>
        ensures ok { OnOk result
            (IsFileAt (map bit_number (decode_bits_of self.now.garbling)) bits.old bits.new) }
        ensures fault { IfErr result
            (HasRoomFault self.now.garbling.outputs (length bits.old)) }
        ensures unwritten { OnErr result (bits.new ≡ bits.old) }
    {
        let outputs = self.garbling.outputs();
        has_room(outputs as usize, bits)?;
        self.put_decode_bits(&mut bits[..outputs as usize]);
        Ok(())
    }

    /// Writes the decode bit of each output wire. The caller ensures that there is a byte for each.
    fn put_decode_bits(&self, bits: &mut [u8])
        requires { length bits.old ≡ self.now.garbling.outputs }
        ensures { bits.new ≡ map bit_number (decode_bits_of self.now.garbling) }
    {
        for i in 0..self.garbling.outputs() {
            bits[i as usize] = bit_byte(self.garbling.decode_bit(i));
        }
    }
}
