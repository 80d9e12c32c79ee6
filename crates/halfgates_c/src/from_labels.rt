//! Evaluation from labels to labels, and decoding.

ghost use Rattle.std.specs.Prelude.{◌≡◌, ◌≢◌, length, pos};
ghost use Rattle.gc_kept.specs.Labels.{AreDecoded, AreEvaluatedTo, HasDecodeFault, HasLabelsEvalFault};
ghost use Rattle.halfgates_c.specs.ReturnsCode.{ReturnsCode};
ghost use Rattle.halfgates_c.specs.Holding.{OfCircuit};

use crate::code::code_of;
use crate::handle::{Handle, on_held};
use gc_kept::{EvaluationBytes, decode};
use std::alloc::Global;

/// Evaluates row pairs and labels, and writes the active labels of all output wires.
#[unsafe(no_mangle)]
pub extern "C" fn halfgates_evaluate_labels(
    alloc: Global,
    circuit: &mut Handle,
    rows: &[u8],
    first: u64,
    labels: &[u8],
    outputs: &mut [u8],
) -> i32
    ensures answer { OfCircuit circuit.old.held result (λ c.
        ReturnsCode result (AreEvaluatedTo c rows.now first labels.now outputs.old outputs.new)
        (HasLabelsEvalFault c rows.now first labels.now (length outputs.old))) }
    ensures back { circuit.new ≡ circuit.old }
    ensures kept { result ≢ pos 0 → outputs.new ≡ outputs.old }
{
    let given = EvaluationBytes {
        rows,
        first,
        labels,
    };
    on_held!(circuit, Circuit(circuit) => {
        code_of(circuit.evaluate_labels(alloc, given, outputs))
    })
}

/// Decodes active labels of output wires, and writes their bits.
#[unsafe(no_mangle)]
pub extern "C" fn halfgates_decode(
    alloc: Global,
    labels: &[u8],
    decode_bits: &[u8],
    bits: &mut [u8],
) -> i32
    ensures answers { ReturnsCode result (AreDecoded labels.now decode_bits.now bits.old bits.new)
        (HasDecodeFault labels.now decode_bits.now (length bits.old)) }
    ensures kept { result ≢ pos 0 → bits.new ≡ bits.old }
{
    code_of(decode(alloc, labels, decode_bits, bits))
}
