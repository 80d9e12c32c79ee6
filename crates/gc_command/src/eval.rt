//! The command `eval`: evaluating a circuit from a garbled file and label files.

ghost use Rattle.std.specs.Prelude.{◌≡◌, ◌≢◌, ℕ, List, Err, map, IfOk, IfErr, MatchResult, string_bytes};
ghost use Rattle.sha2.specs.Sha256.{sha256};
ghost use Rattle.gc_netlist.specs.Canon.{canonical_text};
ghost use Rattle.gc_netlist.specs.Circuit.{IsLawful};
ghost use Rattle.gc_netlist.specs.Reading.{circuit_of};
ghost use Rattle.gc_netlist.specs.Text.{tokens};
ghost use Rattle.gc_workers.specs.Workers.{AreFew};
ghost use Rattle.gc_disk.specs.Files.{GivesFile, HasFailed};
ghost use Rattle.gc_command.specs.CircuitFile.{IsCircuit};
ghost use Rattle.gc_command.specs.Job.{DecodeTo, HasJobFault};
ghost use Rattle.gc_command.specs.Lines.{form_by_flag};
ghost use Rattle.gc_command.specs.Eval.{AreEvalFiles, AreFilesGiven, HasFilesFault, AnswersEval, HasEvalFault, IsEvalFault};

use crate::binder::Binder;
use crate::context::Context;
use crate::digest::with_digest;
use crate::evaluated_files::{are_regular, read_named};
use crate::fault::Fault;
use crate::job::GivenFiles;
use crate::lines::output_lines;
use crate::progress::{Progress, Stage};
use crate::value_form::ValueForm;
use gc_circuit::{Circuit, ReadFault};
use gc_disk::Files;
use gc_job::BindFault;
use gc_order::EvalOrder;
use std::alloc::Allocator;
use std::sync::Wait;
use std::thread;
use std::thread::Threads;

/// Evaluates the circuit of a file from the garbled file and the label files of these names, with this many workers,
/// and returns the lines of the output values that they decode to, in this form. The files are not trusted.
#[inline(never)]
pub fn eval<R: Threads + Wait + Sync, A: Allocator + Copy + Send + Sync, F: Files, P: Progress>(
    context: &Context<'_, R, A, P>,
    order: &EvalOrder,
    files: &mut F,
) -> Result<Vec<u8, A>, Fault>
    ensures answers { IfOk result (λ lines. AnswersEval (F.bytes files.old)
        (string_bytes order.now.circuit) (string_bytes order.now.garbled) order.now.workers
        (form_by_flag order.now.hex) (map string_bytes order.now.labels.items) lines.items) }
    ensures fault { IfErr result (HasEvalFault (F.bytes files.old)
        (HasFailed (F.failures files.old) (F.failures files.new)) (string_bytes order.now.circuit)
        (string_bytes order.now.garbled) order.now.workers
        (map string_bytes order.now.labels.items)) }
    ensures same { (name : List ℕ) → F.bytes files.new name ≡ F.bytes files.old name }
{
    let (rt, alloc) = (context.rt, context.alloc);
    context.progress.begin(1, 3, Stage::ReadingCircuit);
    let bytes = files.read(alloc, order.circuit.as_str())?;
    let text = bytes.as_slice();
    let (circuit, (named, outputs), digest) = with_digest(
        rt,
        text,
        &mut || -> Result<(Circuit<A>, GivenFiles<A>), Fault>
            requires { GivesFile (F.bytes files.now (string_bytes order.now.circuit)) text.now }
            ensures read { IfOk result (λ made. AreEvalFiles (F.bytes files.entry.now)
                (string_bytes order.entry.now.circuit) (string_bytes order.entry.now.garbled)
                (map string_bytes order.entry.now.labels.items) made.0 made.1.0 made.1.1.items) }
            ensures fault { IfErr result (IsEvalFault (F.bytes files.entry.now)
                (HasFailed (F.failures files.entry.now) (F.failures files.exit.now))
                (string_bytes order.entry.now.circuit) (string_bytes order.entry.now.garbled)
                order.entry.now.workers (map string_bytes order.entry.now.labels.items)) }
            ensures same { (name : List ℕ)
                → F.bytes files.exit.now name ≡ F.bytes files.entry.now name }
        { read_files(context, order, text, files) },
        &|circuit, given| evaluate_given(context, order, circuit, given),
    )?;
    if digest != named {
        return Err(Fault::Binding(BindFault::OtherCircuit));
    }
    let outputs = outputs?;
    let form = ValueForm::by_flag(order.hex);
    Ok(output_lines(alloc, form, circuit.output_widths(), &outputs)?)
}

/// The circuit of a text and the other files of an evaluation. Where all of these are regular files they are read while
/// the circuit is, and else in turn. The caller ensures that the text is that of the circuit's file.
fn read_files<R: Threads + Sync, A: Allocator + Copy + Send + Sync, F: Files, P: Progress>(
    context: &Context<'_, R, A, P>,
    order: &EvalOrder,
    text: &[u8],
    files: &mut F,
) -> Result<(Circuit<A>, GivenFiles<A>), Fault>
    requires { GivesFile (F.bytes files.old (string_bytes order.now.circuit)) text.now }
    ensures read { IfOk result (λ made. AreEvalFiles (F.bytes files.old)
        (string_bytes order.now.circuit) (string_bytes order.now.garbled)
        (map string_bytes order.now.labels.items) made.0 made.1.0 made.1.1.items) }
    ensures lawful { IfOk result (λ made. IsLawful made.0) }
    ensures fault { IfErr result (IsEvalFault (F.bytes files.old)
        (HasFailed (F.failures files.old) (F.failures files.new)) (string_bytes order.now.circuit)
        (string_bytes order.now.garbled) order.now.workers
        (map string_bytes order.now.labels.items)) }
    ensures same { (name : List ℕ) → F.bytes files.new name ≡ F.bytes files.old name }
{
    if are_regular(order.garbled.as_str(), &order.labels, files) {
        let (read, given) = read_side_by_side(context, order, text, files);
        let circuit = read?;
        let given = given?;
        return Ok((circuit, given));
    }
    let circuit = Circuit::read(context.alloc, text)?;
    let given = read_given(context, order, files)?;
    Ok((circuit, given))
}

/// The circuit of a text and the other files of an evaluation. Another thread reads the circuit, where one can be
/// started.
fn read_side_by_side<R: Threads + Sync, A: Allocator + Copy + Send + Sync, F: Files, P: Progress>(
    context: &Context<'_, R, A, P>,
    order: &EvalOrder,
    text: &[u8],
    files: &mut F,
) -> (Result<Circuit<A>, ReadFault>, Result<GivenFiles<A>, Fault>)
    ensures circuit { IfOk result.0 (λ c. IsCircuit text.now c) }
    ensures fault { IfErr result.0 (λ fault. fault ≢ ReadFault.Memory
        → circuit_of (tokens text.now) ≡ Err fault) }
    ensures given { IfOk result.1 (λ given. AreFilesGiven (F.bytes files.old)
        (string_bytes order.now.garbled) (map string_bytes order.now.labels.items)
        given.0 given.1.items) }
    ensures not_given { IfErr result.1 (HasFilesFault (F.bytes files.old)
        (HasFailed (F.failures files.old) (F.failures files.new)) (string_bytes order.now.garbled)
        (map string_bytes order.now.labels.items)) }
    ensures same { (name : List ℕ) → F.bytes files.new name ≡ F.bytes files.old name }
{
    let alloc = context.alloc;
    // `join_mut` says what happens to the files, and `join` doesn't.
    thread::join_mut(
        context.rt,
        &mut || -> Result<Circuit<A>, ReadFault>
            ensures circuit { IfOk result (λ c. IsCircuit text.entry.now c) }
            ensures fault { IfErr result (λ fault. fault ≢ ReadFault.Memory
                → circuit_of (tokens text.entry.now) ≡ Err fault) }
        { Circuit::read(alloc, text) },
        &mut || read_given(context, order, files),
    )
}

/// Reads the garbled file and the label files of the order.
fn read_given<R, A: Allocator + Copy, F: Files, P: Progress>(
    context: &Context<'_, R, A, P>,
    order: &EvalOrder,
    files: &mut F,
) -> Result<GivenFiles<A>, Fault>
    ensures given { IfOk result (λ given. AreFilesGiven (F.bytes files.old)
        (string_bytes order.now.garbled) (map string_bytes order.now.labels.items)
        given.0 given.1.items) }
    ensures fault { IfErr result (HasFilesFault (F.bytes files.old)
        (HasFailed (F.failures files.old) (F.failures files.new)) (string_bytes order.now.garbled)
        (map string_bytes order.now.labels.items)) }
    ensures same { (name : List ℕ) → F.bytes files.new name ≡ F.bytes files.old name }
{
    context.progress.begin(2, 3, Stage::ReadingFiles);
    read_named(context.alloc, order.garbled.as_str(), &order.labels, files)
}

/// The digest that a garbled file names, and what it and label files decode to with the order's number of workers, or
/// their fault. Nothing is known of that where the digest is another than the circuit's.
fn evaluate_given<R: Threads + Wait + Sync, A: Allocator + Copy + Send + Sync, P: Progress>(
    context: &Context<'_, R, A, P>,
    order: &EvalOrder,
    circuit: &Circuit<A>,
    given: GivenFiles<A>,
) -> ([u8; 32], Result<Vec<bool, A>, Fault>)
    ensures named { result.0 ≡ given.0.digest }
    ensures outcome { given.0.digest ≡ sha256 (canonical_text circuit.now)
        → MatchResult result.1 (λ bits. AreFew order.now.workers
        × DecodeTo circuit.now given.0 given.1.items bits.items)
        (HasJobFault circuit.now given.0 given.1.items order.now.workers) }
{
    let gates = circuit.gates();
    context.progress.begin(3, 3, Stage::Evaluating { gates });
    let named = given.0.digest();
    let binder = Binder {
        alloc: context.alloc,
        circuit,
        digest: &named,
    };
    let outputs = binder.evaluate_files(context.rt, given, order.workers);
    (named, outputs)
}
