//! Evaluation from labels to labels, and decoding.

ghost use Rattle.std.specs.Prelude.{length, IfErr, OnOk, OnErr, ◌≡◌};
ghost use Rattle.gc_kept.specs.Labels.{AreEvaluatedTo, HasLabelsEvalFault, AreDecoded, HasDecodeFault};

use crate::bits::{read_bits, write_bits};
use crate::circuit::KeptCircuit;
use crate::fault::KeptFault;
use crate::room::has_room;
use gc_file::labels_from_bytes;
use gc_file::sizes::{LABEL, PAIR};
use gc_half::FirstAnd;
use gc_job::{EvalFault, decoded};
use std::alloc::Global;

/// There is no memory for an evaluation.
pub(crate) const NO_MEMORY: KeptFault = KeptFault::Evaluation(EvalFault::Memory);

/// What is evaluated from labels to labels, as bytes.
#[derive(Clone, Copy)]
pub struct EvaluationBytes<'a> {
    /// The row pairs of all AND gates, 32 bytes each.
    pub rows: &'a [u8],
    /// The number of the first AND gate.
    pub first: u64,
    /// The active labels of all input wires, 16 bytes each.
    pub labels: &'a [u8],
}

impl KeptCircuit {
    /// Evaluates row pairs, 32 bytes for each AND gate, and an active label for each input wire, 16 bytes each, as
    /// [`evaluate_labels`](gc_half::evaluate_labels) does, and writes the active labels of the output wires to the
    /// front of a buffer. AND gates are numbered from `first` on. Nothing of the rows and the labels is trusted. It
    /// refuses other numbers of bytes (66), then a first AND gate whose sum with the number of AND gates is above 2^62
    /// (60), and then a buffer that is too small (61).
    pub fn evaluate_labels(
        &self,
        alloc: Global,
        given: EvaluationBytes<'_>,
        outputs: &mut [u8],
    ) -> Result<(), KeptFault>
        ensures ok { OnOk result (AreEvaluatedTo self.now.netlist given.entry.rows.now
            given.entry.first given.entry.labels.now outputs.old outputs.new) }
        ensures fault { IfErr result (HasLabelsEvalFault self.now.netlist given.entry.rows.now
            given.entry.first given.entry.labels.now (length outputs.old)) }
        ensures unwritten { OnErr result (outputs.new ≡ outputs.old) }
    {
        let circuit = self.circuit();
        let and_gates = circuit.and_count();
        if given.rows.len() != PAIR * and_gates as usize
            || given.labels.len() != LABEL * circuit.input_wires() as usize
        {
            return Err(KeptFault::WrongSize);
        }
        let Some(first) = FirstAnd::new(given.first, and_gates) else {
            return Err(KeptFault::BadArgument);
        };
        has_room(LABEL * circuit.output_wires() as usize, outputs)?;
        let mut evaluator = self.evaluator_on(alloc, first, given.labels)?;
        evaluator.use_rows(given.rows);
        evaluator.write_labels(outputs);
        Ok(())
    }
}

/// Writes the bits that active labels of output wires decode to, 16 bytes each, to the front of a buffer: each is the
/// decode bit xor the label's colour. It refuses other labels than one for each decode bit (66), a buffer that is too
/// small (61), and a decode bit other than 0 and 1 (15), in this order.
pub fn decode(
    alloc: Global,
    labels: &[u8],
    decode_bits: &[u8],
    bits: &mut [u8],
) -> Result<(), KeptFault>
    ensures ok { OnOk result (AreDecoded labels.now decode_bits.now bits.old bits.new) }
    ensures fault { IfErr result
        (HasDecodeFault labels.now decode_bits.now (length bits.old)) }
    ensures unwritten { OnErr result (bits.new ≡ bits.old) }
{
    let count = decode_bits.len();
    if labels.len() % LABEL != 0 || labels.len() / LABEL != count {
        return Err(KeptFault::WrongSize);
    }
    has_room(count, bits)?;
    let decode_bits = read_bits(alloc, decode_bits, count)?;
    let Ok(labels) = labels_from_bytes(alloc, labels) else {
        return Err(NO_MEMORY);
    };
    let Ok(found) = decoded(alloc, &decode_bits, &labels) else {
        return Err(NO_MEMORY);
    };
    write_bits(&found, bits);
    Ok(())
}
