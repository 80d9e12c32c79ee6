//! Writing label files.

ghost use Rattle.std.specs.Prelude.{◌≡◌, ◌<◌, ◌≤◌, ◌+◌, ◌^◌, length, slice_get, Some, flat_map, sum, take};
ghost use Rattle.gc_label.specs.Label.{bytes_of_label};
ghost use Rattle.gc_file.specs.Counted.{CountsFailure};
ghost use Rattle.gc_file.specs.LabelFile.{label_file, label_parts_of, encoded_from};
ghost use Rattle.gc_file.specs.Writing.{Proceeds, Unseen};
ghost use Rattle.gc_file.specs.Written.{IsWritten};

use crate::sink::Sink;
use crate::spell::label_header;
use crate::writer::{FileWriter, Observer, Unobserved, WriteFault};
use gc_circuit::Circuit;
use gc_half::encode;
use gc_label::{Label, Offset, Seed, fill_input_labels, offset};
use std::alloc::Allocator;

/// The number of labels that are made at once.
const LABELS: usize = 64;

/// Bits of the input wires from `first` on, and the seed whose labels stand for them.
#[derive(Clone, Copy)]
struct InputBits<'a> {
    seed: &'a Seed,
    first: u32,
    bits: &'a [bool],
}

impl FileWriter<Unobserved> {
    /// Writes the labels that stand for these bits. There are at most as many bits as labels that are made at once.
    fn write_some_labels<S: Sink>(
        &mut self,
        sink: &mut S,
        of: &InputBits<'_>,
    ) -> Result<(), WriteFault>
        requires few { length of.now.bits.now ≤ LABELS }
        requires wires { of.now.first + LABELS ≤ 2 ^ 32 }
        ensures bytes { Proceeds Unseen self.old self.new
            (S.taken sink.old) (S.taken sink.new) result
            (flat_map bytes_of_label
            (encoded_from of.now.first of.now.seed.now of.now.bits.now)) }
        ensures counted { CountsFailure result (S.failures sink.old) (S.failures sink.new) }
    {
        let mut zero_labels = [Label::ZERO; LABELS];
        fill_input_labels(of.seed, of.first, &mut zero_labels);
        let offset = offset(of.seed);
        for (i, bit) in of.bits.iter().enumerate() {
            let label = encode(offset, zero_labels[i], *bit);
            self.write(sink, &label.to_bytes())?;
        }
        Ok(())
    }

    /// Writes the labels that stand for these bits.
    fn write_labels<S: Sink>(&mut self, sink: &mut S, of: &InputBits<'_>) -> Result<(), WriteFault>
        requires { of.now.first + length of.now.bits.now + LABELS ≤ 2 ^ 32 }
        ensures bytes { Proceeds Unseen self.old self.new
            (S.taken sink.old) (S.taken sink.new) result
            (flat_map bytes_of_label
            (encoded_from of.now.first of.now.seed.now of.now.bits.now)) }
        ensures counted { CountsFailure result (S.failures sink.old) (S.failures sink.new) }
    {
        let mut done = 0;
        while done < of.bits.len() {
            let next = (done + LABELS).min(of.bits.len());
            let some = InputBits {
                seed: of.seed,
                first: of.first + done as u32,
                bits: &of.bits[done..next],
            };
            self.write_some_labels(sink, &some)?;
            done = next;
        }
        Ok(())
    }
}

/// The first wire of the input value with this index: the sum of the widths of the values before it. The caller ensures
/// that there are at least as many values.
pub fn first_wire<A: Allocator>(circuit: &Circuit<A>, index: usize) -> u32
    requires { index ≤ length circuit.now.input_widths }
    ensures { result ≡ sum (take index circuit.now.input_widths) }
{
    circuit.law_lawful();
    sum_of(&circuit.input_widths()[..index])
}

/// The sum of these widths. The caller ensures that it is below 2^32.
pub fn sum_of(widths: &[u32]) -> u32
    requires { sum widths.now < 2 ^ 32 }
    ensures { result ≡ sum widths.now }
{
    widths.iter().sum()
}

/// Writes the label file of the input value with this index to the sink and returns how many bytes it has: for each of
/// the value's wires, in wire order, the label that stands for its bit, which is the wire's zero label plus the bit
/// times the offset of the seed. The caller ensures that there is such a value, and that the bits have its width. It
/// doesn't allocate but what the sink takes.
///
/// Where the sink fails, it has taken the first `sent` bytes of the file, and no others.
pub fn write_labels<S: Sink, A: Allocator>(
    sink: &mut S,
    circuit: &Circuit<A>,
    seed: &Seed,
    index: u32,
    bits: &[bool],
) -> Result<u64, WriteFault>
    requires { slice_get circuit.now.input_widths index ≡ Some (length bits.now) }
    ensures file { IsWritten (label_file (label_parts_of circuit.now seed.now index bits.now))
        result (S.taken sink.old) (S.taken sink.new) }
    ensures counted { CountsFailure result (S.failures sink.old) (S.failures sink.new) }
{
    circuit.law_lawful();
    let first = first_wire(circuit, index as usize);
    let mut file = FileWriter::new(Unobserved);
    file.write(sink, label_header(index, bits.len() as u32).as_slice())?;
    file.write_labels(sink, &InputBits { seed, first, bits })?;
    file.end(sink)
}
