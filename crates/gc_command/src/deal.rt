//! The command `deal`: writing the labels of one input value.

ghost use Rattle.std.specs.Prelude.{◌≡◌, ◌≢◌, ℕ, List, Some, length, slice_get, IfOk, IfErr, OnOk, OnErr, IfSome, string_bytes};
ghost use Rattle.gc_file.specs.LabelFile.{label_file, label_parts_of};
ghost use Rattle.gc_disk.specs.Files.{HasFailed};
ghost use Rattle.gc_command.specs.Deal.{AnswersDeal, HasDealFault};
ghost use Rattle.gc_command.specs.Wrote.{HasWritten, IsUnwritten, KeepsFiles};
ghost use Rattle.gc_command.specs.Fault.{HasCause, HasWriteCause};

use crate::circuit_file::read_circuit;
use crate::fault::Fault;
use crate::seeded_circuit::SeededCircuit;
use crate::values::read_input_value;
use crate::wrote::{ROOM, keep_written, wrote_line};
use gc_disk::Files;
use gc_file::write_labels;
use gc_label::Seed;
use gc_order::DealOrder;
use std::alloc::Allocator;

/// Writes the label file of the input value of this index, by the circuit of a file and a seed, and returns the line
/// that states its bytes. A file in place of the label file is replaced at once, and stays as it is at a fault.
#[inline(never)]
pub fn deal<A: Allocator + Copy, F: Files>(
    alloc: A,
    order: &DealOrder,
    files: &mut F,
) -> Result<Vec<u8, A>, Fault>
    ensures answers { IfOk result
        (λ lines. IfSome (F.bytes files.old (string_bytes order.now.circuit))
        (λ bytes. AnswersDeal bytes (string_bytes order.now.seed) order.now.index
        (string_bytes order.now.value) (F.bytes files.new (string_bytes order.now.out))
        lines.items)) }
    ensures fault { IfErr result
        (λ fault. IfSome (F.bytes files.old (string_bytes order.now.circuit))
        (λ bytes. HasDealFault bytes (string_bytes order.now.seed) order.now.index
        (string_bytes order.now.value) fault)) }
    ensures cause { IfErr result (λ fault. HasCause fault
        (HasFailed (F.failures files.old) (F.failures files.new) (string_bytes order.now.circuit))
        (HasFailed (F.failures files.old) (F.failures files.new) (string_bytes order.now.out))) }
    ensures others { (n : List ℕ) → n ≢ string_bytes order.now.out
        → F.bytes files.new n ≡ F.bytes files.old n }
    ensures unwritten { OnErr result (KeepsFiles (F.bytes files.old) (F.bytes files.new)) }
    ensures apart { OnOk result (string_bytes order.now.out ≢ string_bytes order.now.circuit) }
{
    let (name, seed, value) = (
        order.circuit.as_str(),
        order.seed.as_str(),
        order.value.as_str(),
    );
    let circuit = read_circuit(alloc, name, files)?;
    let seed = Seed::from_hex(seed)?;
    let bits = read_input_value(alloc, circuit.input_widths(), order.index, value)?;
    let seeded = SeededCircuit {
        alloc,
        circuit: &circuit,
        seed: &seed,
    };
    seeded.write_value(order, &bits, files)
}

impl<A: Allocator + Copy> SeededCircuit<'_, A> {
    /// Writes the label file of the input value, which has these bits and is not the circuit's file. The caller ensures
    /// that there is such a value, and that the bits have its width.
    fn write_value<F: Files>(
        &self,
        order: &DealOrder,
        bits: &[bool],
        files: &mut F,
    ) -> Result<Vec<u8, A>, Fault>
        requires { slice_get self.now.circuit.now.input_widths order.now.index
            ≡ Some (length bits.now) }
        ensures written { IfOk result (λ lines. (n : List ℕ) → IfSome (F.bytes files.old n)
            (λ _. HasWritten
            (label_file (label_parts_of self.now.circuit.now self.now.seed.now order.now.index
            bits.now))
            (F.bytes files.new (string_bytes order.now.out)) lines.items)) }
        ensures fault { IfErr result IsUnwritten }
        ensures cause { IfErr result (HasWriteCause (F.failures files.old) (F.failures files.new)
            (string_bytes order.now.out)) }
        ensures others { (n : List ℕ) → n ≢ string_bytes order.now.out
            → F.bytes files.new n ≡ F.bytes files.old n }
        ensures unwritten { OnErr result (KeepsFiles (F.bytes files.old) (F.bytes files.new)) }
        ensures apart { OnOk result (string_bytes order.now.out ≢ string_bytes order.now.circuit) }
    {
        let room = Vec::with_capacity(self.alloc, ROOM)?;
        let (out, source) = (order.out.as_str(), order.circuit.as_str());
        let mut sink = files.create(out, source)?;
        let written = write_labels(&mut sink, self.circuit, self.seed, order.index, bits);
        let count = keep_written(files, out, sink, written)?;
        Ok(wrote_line(room, count))
    }
}
