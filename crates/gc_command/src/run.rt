//! The command `run`: garbling, dealing and evaluating in one.

ghost use Rattle.std.specs.Prelude.{◌≡◌, ℕ, List, map, IfOk, IfErr, IfSome, string_bytes};
ghost use Rattle.sha2.specs.Sha256.{sha256};
ghost use Rattle.gc_netlist.specs.Canon.{canonical_text};
ghost use Rattle.gc_half.specs.Garbling.{IsGarbled};
ghost use Rattle.gc_workers.specs.Workers.{AreFew};
ghost use Rattle.gc_work.specs.WorkFault.{JudgesWorkers};
ghost use Rattle.gc_command.specs.Fault.{HasReadCause};
ghost use Rattle.gc_command.specs.Input.{IsInput};
ghost use Rattle.gc_command.specs.Lines.{form_by_flag};
ghost use Rattle.gc_command.specs.Run.{AnswersRun, HasRunFault, IsRunFault};

use crate::binder::Binder;
use crate::context::Context;
use crate::digest::with_digest;
use crate::fault::Fault;
use crate::garbling::garble;
use crate::lines::output_lines;
use crate::progress::{Progress, Stage};
use crate::seeded_circuit::SeededCircuit;
use crate::value_form::ValueForm;
use crate::values::read_values;
use gc_circuit::Circuit;
use gc_disk::Files;
use gc_half::Garbling;
use gc_label::Seed;
use gc_order::RunOrder;
use gc_work::WorkFault;
use std::alloc::Allocator;
use std::sync::Wait;
use std::thread::Threads;

/// A seed, and the bits of input values.
type Input<A> = (Seed, Vec<Vec<bool, A>, A>);

/// Garbles the circuit of a file under a seed with this many workers, deals the values, evaluates the circuit from the
/// files of these, which it makes in memory, and returns the lines of the output values in this form.
#[inline(never)]
pub fn run<R: Threads + Wait + Sync, A: Allocator + Copy + Send + Sync, F: Files, P: Progress>(
    context: &Context<'_, R, A, P>,
    order: &RunOrder,
    files: &mut F,
) -> Result<Vec<u8, A>, Fault>
    ensures answers { IfOk result
        (λ lines. IfSome (F.bytes files.old (string_bytes order.now.circuit))
        (λ bytes. AnswersRun bytes (string_bytes order.now.seed) order.now.workers
        (form_by_flag order.now.hex) (map string_bytes order.now.values.items) lines.items)) }
    ensures fault { IfErr result
        (λ fault. IfSome (F.bytes files.old (string_bytes order.now.circuit))
        (λ bytes. HasRunFault bytes (string_bytes order.now.seed) order.now.workers
        (map string_bytes order.now.values.items) fault)) }
    ensures cause { IfErr result (HasReadCause (F.failures files.old) (F.failures files.new)
        (string_bytes order.now.circuit)) }
    ensures same { (name : List ℕ) → F.bytes files.new name ≡ F.bytes files.old name }
{
    context.progress.begin(1, 3, Stage::ReadingCircuit);
    let text = files.read(context.alloc, order.circuit.as_str())?;
    run_text(context, order, text)
}

/// Does what `run` does with the text of the circuit's file, which is dropped once the circuit is garbled.
fn run_text<R: Threads + Wait + Sync, A: Allocator + Copy + Send + Sync, P: Progress>(
    context: &Context<'_, R, A, P>,
    order: &RunOrder,
    text: Vec<u8, A>,
) -> Result<Vec<u8, A>, Fault>
    ensures answers { IfOk result (λ lines. AnswersRun text.items (string_bytes order.now.seed)
        order.now.workers (form_by_flag order.now.hex) (map string_bytes order.now.values.items)
        lines.items) }
    ensures fault { IfErr result (IsRunFault text.items (string_bytes order.now.seed)
        order.now.workers (map string_bytes order.now.values.items)) }
{
    let alloc = context.alloc;
    let (circuit, garbling, (seed, values), digest) = garble_text(context, order, &text)?;
    drop(text);
    let seeded = SeededCircuit {
        alloc,
        circuit: &circuit,
        seed: &seed,
    };
    let garbled = seeded.own_garbled(&digest, garbling)?;
    let labels = seeded.own_labels(&values)?;
    let gates = circuit.gates();
    context.progress.begin(3, 3, Stage::Evaluating { gates });
    let binder = Binder {
        alloc,
        circuit: &circuit,
        digest: &digest,
    };
    let outputs = binder.evaluate_files(context.rt, (garbled, labels), 1)?;
    let form = ValueForm::by_flag(order.hex);
    Ok(output_lines(alloc, form, circuit.output_widths(), &outputs)?)
}

/// The circuit of a text, its garbling under the seed with this many workers, the seed and the values, and the
/// circuit's digest.
fn garble_text<R: Threads + Wait + Sync, A: Allocator + Copy + Send + Sync, P: Progress>(
    context: &Context<'_, R, A, P>,
    order: &RunOrder,
    text: &[u8],
) -> Result<(Circuit<A>, Garbling<A>, Input<A>, [u8; 32]), Fault>
    ensures input { IfOk result (λ made. IsInput text.now (string_bytes order.now.seed)
        (map string_bytes order.now.values.items) made.0
        (map (λ value. value.items) made.2.1.items)) }
    ensures garbled { IfOk result (λ made. IsGarbled made.0 made.2.0 made.1) }
    ensures few { IfOk result (λ _. AreFew order.now.workers) }
    ensures digest { IfOk result (λ made. made.3 ≡ sha256 (canonical_text made.0)) }
    ensures fault { IfErr result (IsRunFault text.now (string_bytes order.now.seed)
        order.now.workers (map string_bytes order.now.values.items)) }
{
    let (circuit, made, digest) = with_digest(
        context.rt,
        text,
        &mut || read_input(context.alloc, order, text),
        &|circuit, input| garble_input(context, order, circuit, input),
    )?;
    let (garbling, input) = made?;
    Ok((circuit, garbling, input, digest))
}

/// Reads the circuit of a text, the seed and the values.
fn read_input<A: Allocator + Copy>(
    alloc: A,
    order: &RunOrder,
    text: &[u8],
) -> Result<(Circuit<A>, Input<A>), Fault>
    ensures input { IfOk result (λ made. IsInput text.now (string_bytes order.now.seed)
        (map string_bytes order.now.values.items) made.0
        (map (λ value. value.items) made.1.1.items)) }
    ensures fault { IfErr result (IsRunFault text.now (string_bytes order.now.seed)
        order.now.workers (map string_bytes order.now.values.items)) }
{
    let circuit = Circuit::read(alloc, text)?;
    let seed = Seed::from_hex(order.seed.as_str())?;
    let values = read_values(alloc, circuit.input_widths(), &order.values)?;
    Ok((circuit, (seed, values)))
}

/// The garbling of the circuit under the seed, with this many workers, and the seed and the values.
fn garble_input<R: Threads + Wait + Sync, A: Allocator + Copy + Send + Sync, P: Progress>(
    context: &Context<'_, R, A, P>,
    order: &RunOrder,
    circuit: &Circuit<A>,
    input: Input<A>,
) -> Result<(Garbling<A>, Input<A>), WorkFault>
    ensures garbled { IfOk result (λ made. IsGarbled circuit.now input.0 made.0) }
    ensures input { IfOk result (λ made. made.1 ≡ input) }
    ensures workers { JudgesWorkers order.now.workers result }
{
    Ok((garble(context, circuit, &input.0, order.workers)?, input))
}
