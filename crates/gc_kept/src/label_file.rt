//! Label files, dealt under a seed or from a garbling, and of labels that were received.

ghost use Rattle.std.specs.Prelude.{◌≡◌, ℕ, ◌+◌, ◌*◌, ◌^◌, ◌<◌, ◌≤◌, ◌++◌, take, length, map, slice_get, slice_index, Some, IfOk, IfErr, OnErr};
ghost use Rattle.std.specs.List.{range_with_len};
ghost use Rattle.gc_netlist.specs.Spelling.{bit_number};
ghost use Rattle.gc_label.specs.Seed.{input_label_of};
ghost use Rattle.gc_file.specs.LabelFile.{encoded_with, label_file, label_magic};
ghost use Rattle.gc_file.specs.Number.{number_bytes};
ghost use Rattle.gc_kept.specs.Files.{HasDealtFault, HasDealtFaultFrom, HasDealtFaultWith, IsDealtAt, IsDealtFrom, IsFileAt};
ghost use Rattle.gc_kept.specs.Labels.{IsReceivedAt, HasReceivedFault};

use crate::bits::read_bits;
use crate::circuit::KeptCircuit;
use crate::fault::KeptFault;
use crate::garbling::KeptGarbling;
use crate::label_bytes::put_labels;
use crate::room::has_file_room;
use gc_file::sizes::{LABEL, LABEL_HEADER};
use gc_file::{first_wire, label_header, labels_from_bytes};
use gc_half::encode;
use gc_label::{Label, Offset, Seed, fill_input_labels, offset};
use std::alloc::{AllocError, Global};

/// Writes the header of a label file. The caller ensures that there is room.
#[tactic(auto, using(crate::proofs::PieceLemmas::length_header))]
fn put_header(index: u32, width: u32, file: &mut [u8])
    requires { 16 ≤ length file.old }
    ensures header { take 16 file.new ≡ label_magic ++ number_bytes index ++ number_bytes width }
    ensures count { length file.new ≡ length file.old }
{
    file[..LABEL_HEADER].copy_from_slice(label_header(index, width).as_slice());
}

/// Writes the label file with this index and these labels. The caller ensures that there are as many bytes as it has.
fn put_file(index: u32, labels: &[Label], file: &mut [u8])
    requires bytes { length file.old ≡ 16 + 16 * length labels.now }
    requires few { length labels.now < 2 ^ 32 }
    ensures { file.new ≡ label_file (record { index = index; labels = labels.now }) }
{
    put_header(index, labels.len() as u32, file);
    put_labels(labels, &mut file[LABEL_HEADER..]);
}

/// Writes the label file with this index and these labels to the front of a buffer, whose end stays as it is, and
/// returns the number of its bytes. The caller ensures that there is room.
fn write_file(index: u32, labels: &[Label], buffer: &mut [u8]) -> usize
    requires room { 16 + 16 * length labels.now ≤ length buffer.old }
    requires few { length labels.now < 2 ^ 32 }
    ensures file { IsFileAt (label_file (record { index = index; labels = labels.now }))
        buffer.old buffer.new }
    ensures size { result ≡ 16 + 16 * length labels.now }
{
    let size = LABEL_HEADER + LABEL * labels.len();
    put_file(index, labels, &mut buffer[..size]);
    size
}

/// The zero labels that a seed gives to this many input wires from the first one on.
fn zero_labels(
    alloc: Global,
    seed: &Seed,
    first: u32,
    count: usize,
) -> Result<Vec<Label, Global>, AllocError>
    requires { first + count ≤ 2 ^ 32 }
    ensures labels { IfOk result (λ v.
        v.items ≡ map (input_label_of seed.now) (range_with_len first count)) }
    ensures count { IfOk result (λ v. length v.items ≡ count) }
{
    let mut labels = Vec::with_capacity(alloc, count)?;
    labels.resize(count, Label::ZERO)?;
    fill_input_labels(seed, first, labels.as_mut_slice());
    Ok(labels)
}

/// The labels that stand for bits on wires with these zero labels. The caller ensures that there are as many.
fn encoded(
    alloc: Global,
    offset: Offset,
    zero_labels: &[Label],
    bits: &[bool],
) -> Result<Vec<Label, Global>, AllocError>
    requires { length zero_labels.now ≡ length bits.now }
    ensures labels { IfOk result (λ v.
        v.items ≡ encoded_with offset (slice_index zero_labels.now) 0 bits.now) }
    ensures count { IfOk result (λ v. length v.items ≡ length bits.now) }
{
    let mut labels = Vec::with_capacity(alloc, bits.len())?;
    for i in 0..bits.len() {
        labels.push(encode(offset, zero_labels[i], bits[i]))?;
    }
    Ok(labels)
}

/// What an input value is given, as bytes.
#[derive(Clone, Copy)]
pub struct InputBytes<'a> {
    /// The value's index.
    pub index: u32,
    /// For each wire of the value a bit, which is a byte 0 or 1, or a label of 16 bytes.
    pub bytes: &'a [u8],
}

/// What an input value is given under a seed, as bytes.
#[derive(Clone, Copy)]
pub struct SeededBytes<'a> {
    /// The seed.
    pub seed: &'a [u8; 32],
    /// The value, and its bits.
    pub input: InputBytes<'a>,
}

impl KeptCircuit {
    /// The bits that an input value is given, where a buffer has room for a label file of them. It refuses what
    /// [`KeptCircuit::deal`] refuses.
    fn dealt_bits(
        &self,
        alloc: Global,
        input: InputBytes<'_>,
        buffer: &[u8],
    ) -> Result<Vec<bool, Global>, KeptFault>
        ensures bytes { IfOk result (λ v. input.entry.bytes.now ≡ map bit_number v.items) }
        ensures width { IfOk result (λ v.
            slice_get self.now.netlist.input_widths input.entry.index ≡ Some (length v.items)) }
        ensures few { IfOk result (λ v. length v.items < 2 ^ 32) }
        ensures room { IfOk result (λ v. 16 + 16 * length v.items ≤ length buffer.now) }
        ensures fault { (offset : ℕ) (zero_label : ℕ → ℕ) → IfErr result
            (HasDealtFaultWith self.now.netlist offset zero_label input.entry.index
            input.entry.bytes.now (length buffer.now)) }
    {
        let width = self.input_width(input.index)?;
        let bits = read_bits(alloc, input.bytes, width)?;
        has_file_room(LABEL_HEADER + LABEL * width, buffer)?;
        Ok(bits)
    }

    /// Writes the label file of an input value, for its bits under a seed, and returns the number of its bytes. It
    /// refuses an index without a value (42), a wrong number of bits (16), a byte other than 0 and 1 (15), and a buffer
    /// that is too small (61): then no file is made.
    pub fn deal(
        &self,
        alloc: Global,
        given: SeededBytes<'_>,
        buffer: &mut [u8],
    ) -> Result<usize, KeptFault>
        ensures ok { IfOk result (IsDealtAt self.now.netlist given.entry.seed.now
            given.entry.input.index given.entry.input.bytes.now buffer.old buffer.new) }
        ensures fault { IfErr result (HasDealtFault self.now.netlist given.entry.seed.now
            given.entry.input.index given.entry.input.bytes.now (length buffer.old)) }
        ensures unwritten { OnErr result (buffer.new ≡ buffer.old) }
    {
        let index = given.input.index;
        let bits = self.dealt_bits(alloc, given.input, buffer)?;
        let seed = Seed::from_bytes(*given.seed);
        let first = first_wire(self.circuit(), index as usize);
        let zero_labels = zero_labels(alloc, &seed, first, bits.len())?;
        let labels = encoded(alloc, offset(&seed), &zero_labels, &bits)?;
        Ok(write_file(index, &labels, buffer))
    }

    /// Writes the label file of an input value with these labels, and returns the number of its bytes. It refuses an
    /// index without a value (42), another number of bytes than 16 for each wire of the value (66), and a buffer that
    /// is too small (61).
    pub fn label_file(
        &self,
        alloc: Global,
        input: InputBytes<'_>,
        buffer: &mut [u8],
    ) -> Result<usize, KeptFault>
        ensures ok { IfOk result (IsReceivedAt self.now.netlist input.entry.index
            input.entry.bytes.now buffer.old buffer.new) }
        ensures fault { IfErr result (HasReceivedFault self.now.netlist input.entry.index
            input.entry.bytes.now (length buffer.old)) }
        ensures unwritten { OnErr result (buffer.new ≡ buffer.old) }
    {
        let width = self.input_width(input.index)?;
        if input.bytes.len() != LABEL * width {
            return Err(KeptFault::WrongSize);
        }
        has_file_room(LABEL_HEADER + LABEL * width, buffer)?;
        let Ok(labels) = labels_from_bytes(alloc, input.bytes) else {
            return Err(KeptFault::Memory);
        };
        Ok(write_file(input.index, &labels, buffer))
    }
}

impl KeptGarbling {
    /// Writes the label file of an input value, for its bits, and returns the number of its bytes. The refusals are
    /// those of [`KeptCircuit::deal`].
    pub fn deal(
        &self,
        alloc: Global,
        input: InputBytes<'_>,
        buffer: &mut [u8],
    ) -> Result<usize, KeptFault>
        ensures ok { IfOk result (IsDealtFrom self.now input.entry.index input.entry.bytes.now
            buffer.old buffer.new) }
        ensures fault { IfErr result (HasDealtFaultFrom self.now input.entry.index
            input.entry.bytes.now (length buffer.old)) }
        ensures unwritten { OnErr result (buffer.new ≡ buffer.old) }
    {
        let bits = self.circuit().dealt_bits(alloc, input, buffer)?;
        let zero_labels = self.input_zero_labels(input.index, bits.len());
        let labels = encoded(alloc, self.offset, zero_labels, &bits)?;
        Ok(write_file(input.index, &labels, buffer))
    }
}
