//! Evaluating in pieces.

ghost use Rattle.std.specs.Prelude.{◌≡◌, ◌≢◌, Some, OnOk, OnErr, IfErr, length, pos};
ghost use Rattle.core.specs.Ptr.{as_mut_ptr};
ghost use denote.RawPtr.{Testable};
ghost use Rattle.gc_kept.specs.Evaluator.{HasBeginFault, HasFeedFault, AreFoundLabels, HasFoundFault};
ghost use Rattle.halfgates_c.specs.ReturnsCode.{ReturnsCode};
ghost use Rattle.halfgates_c.specs.Holding.{OfCircuit, OfEvaluator};
ghost use Rattle.halfgates_c.specs.InProgress.{HoldsBegunOn, HoldsFed};

use crate::code::{NULL_POINTER, WRONG_HANDLE, code_of, report};
use crate::handle::{Handle, on_held};
use crate::null::is_null;
use crate::slot::Slot;
use gc_kept::{Held, KeptCircuit, KeptFault};
use std::alloc::Global;

/// What an evaluation begins with: the number of the first AND gate, and the active labels of all input wires.
#[derive(Clone, Copy)]
struct Start<'a> {
    first: u64,
    labels: &'a [u8],
}

/// Begins to evaluate a circuit on labels, and hands the evaluator out.
fn begin(
    alloc: Global,
    circuit: &KeptCircuit,
    start: Start<'_>,
    slot: &mut Slot,
) -> Result<(), KeptFault>
    ensures ok { OnOk result
        (HoldsBegunOn circuit.now.netlist start.entry.first start.entry.labels.now slot.new) }
    ensures fault { IfErr result
        (HasBeginFault circuit.now.netlist start.entry.first start.entry.labels.now) }
    ensures kept { OnErr result (slot.new ≡ slot.old) }
{
    let evaluator = circuit.begin_evaluating(alloc, start.first, start.labels)?;
    slot.hand_out(alloc, Held::Evaluator(evaluator))
}

/// Begins to evaluate a circuit on active labels of all input wires.
#[unsafe(no_mangle)]
pub extern "C" fn halfgates_evaluator_begin(
    alloc: Global,
    circuit: &mut Handle,
    first: u64,
    labels: &[u8],
    evaluator: &mut Slot,
) -> i32
    requires evaluator { Testable (as_mut_ptr evaluator) }
    ensures answer { OfCircuit circuit.old.held result (λ c.
        ReturnsCode result (HoldsBegunOn c first labels.now evaluator.new)
        (HasBeginFault c first labels.now)) }
    ensures back { circuit.new ≡ circuit.old }
    ensures kept { result ≢ pos 0 → evaluator.new ≡ evaluator.old }
{
    if is_null(evaluator) {
        return NULL_POINTER;
    }
    on_held!(circuit, Circuit(circuit) => {
        code_of(begin(alloc, circuit, Start { first, labels }, evaluator))
    })
}

/// Frees an evaluator. Null is allowed.
#[unsafe(no_mangle)]
pub extern "C" fn halfgates_evaluator_free(evaluator: Slot) {
    drop(evaluator);
}

/// Uses the whole row pairs in these bytes, if what is held is an evaluator.
fn feed_to(held: &mut Held, rows: &[u8], taken: &mut usize) -> i32
    ensures answer { OfEvaluator (Some held.old) result (λ e. ReturnsCode result
        (HoldsFed e (Some held.new) rows.now taken.new)
        (HasFeedFault e (length rows.now))) }
    ensures kept { result ≢ pos 0 → held.new ≡ held.old }
    ensures unreported { result ≢ pos 0 → taken.new ≡ taken.old }
{
    match held {
        Held::Evaluator(evaluator) => report(evaluator.feed(rows), taken),
        _ => WRONG_HANDLE,
    }
}

/// Evaluates on, with the row pairs that come next.
#[unsafe(no_mangle)]
pub extern "C" fn halfgates_evaluator_feed(
    alloc: Global,
    evaluator: &mut Slot,
    rows: &[u8],
    taken: &mut usize,
) -> i32
    requires taken { Testable (as_mut_ptr taken) }
    ensures answer { OfEvaluator evaluator.old.held result (λ e.
        ReturnsCode result (HoldsFed e evaluator.new.held rows.now taken.new)
        (HasFeedFault e (length rows.now))) }
    ensures kept { result ≢ pos 0 → evaluator.new.held ≡ evaluator.old.held }
    ensures unreported { result ≢ pos 0 → taken.new ≡ taken.old }
{
    if is_null(taken) {
        return NULL_POINTER;
    }
    let Some(mut held) = evaluator.take(alloc) else {
        return NULL_POINTER;
    };
    let code = feed_to(&mut held, rows, taken);
    evaluator.put(held);
    code
}

/// Writes the active labels of all output wires, once all row pairs are used.
#[unsafe(no_mangle)]
pub extern "C" fn halfgates_evaluator_output_labels(
    evaluator: &mut Handle,
    labels: &mut [u8],
) -> i32
    ensures answer { OfEvaluator evaluator.old.held result (λ e.
        ReturnsCode result (AreFoundLabels e labels.old labels.new)
        (HasFoundFault e (length labels.old))) }
    ensures back { evaluator.new ≡ evaluator.old }
    ensures kept { result ≢ pos 0 → labels.new ≡ labels.old }
{
    on_held!(evaluator, Evaluator(evaluator) => {
        code_of(evaluator.output_labels(labels))
    })
}
