//! The command `jobs`: evaluating a list of garbled files of one circuit.

ghost use Rattle.std.specs.Prelude.{◌≡◌, ◌<◌, ◌≤◌, ℕ, List, All, length, map, sum, IfOk, IfErr, Err, string_bytes};
ghost use Rattle.gc_workers.specs.Workers.{AreFew};
ghost use Rattle.gc_job.specs.Jobs.{AreEvaluated};
ghost use Rattle.gc_bank.specs.Jobs.{AreEvaluatedBy, AreOnOneCircuit};
ghost use Rattle.gc_rounds.specs.declared.words.TheConstants.{MAX_JOBS};
ghost use Rattle.gc_disk.specs.Files.{HasFailed};
ghost use Rattle.gc_command.specs.Lines.{form_by_flag};
ghost use Rattle.gc_command.specs.Jobs.{AnswersJobs, HasJobsFault, jobs_lines};

use crate::binder::Binder;
use crate::circuit_file::read_circuit_and_digest;
use crate::context::Context;
use crate::fault::Fault;
use crate::lines::push_output_lines;
use crate::progress::{Progress, Stage};
use crate::value_form::ValueForm;
use gc_bank::evaluate_jobs;
use gc_disk::Files;
use gc_job::{EvalFault, Job};
use gc_order::JobsOrder;
use gc_workers::Open;
use std::alloc::{AllocError, Allocator};
use std::thread::Threads;

/// Evaluates the circuit of a file with this many workers from each garbled file that the list of this name has, with
/// the label files on its line, and returns the lines of the output values that they decode to, in this form. The files
/// are not trusted.
#[inline(never)]
pub fn jobs<R: Threads + Sync, A: Allocator + Copy + Send + Sync, F: Files, P: Progress>(
    context: &Context<'_, R, A, P>,
    order: &JobsOrder,
    files: &mut F,
) -> Result<Vec<u8, A>, Fault>
    ensures answers { IfOk result (λ lines. AnswersJobs (F.bytes files.old)
        (string_bytes order.now.circuit) (string_bytes order.now.list) order.now.workers
        (form_by_flag order.now.hex) lines.items) }
    ensures fault { IfErr result (HasJobsFault (F.bytes files.old)
        (HasFailed (F.failures files.old) (F.failures files.new)) (string_bytes order.now.circuit)
        (string_bytes order.now.list) order.now.workers) }
    ensures same { (name : List ℕ) → F.bytes files.new name ≡ F.bytes files.old name }
{
    let (rt, alloc, progress) = (context.rt, context.alloc, context.progress);
    let (name, list) = (order.circuit.as_str(), order.list.as_str());
    progress.begin(1, 3, Stage::ReadingCircuit);
    let (circuit, digest) = read_circuit_and_digest(rt, alloc, name, files)?;
    let binder = Binder {
        alloc,
        circuit: &circuit,
        digest: &digest,
    };
    let jobs = binder.read_listed_jobs(list, files, progress)?;
    progress.begin(3, 3, Stage::EvaluatingJobs { jobs: jobs.len() });
    let outputs = evaluate_listed(rt, alloc, &jobs, order.workers)?;
    let form = ValueForm::by_flag(order.hex);
    Ok(jobs_lines(alloc, form, circuit.output_widths(), &outputs)?)
}

/// The output bits of each job of a list, which may have none. The caller ensures that all are on one circuit, and that
/// they are not too many.
fn evaluate_listed<R: Threads + Sync, A: Allocator + Copy + Send + Sync>(
    rt: &R,
    alloc: A,
    jobs: &[Job<'_, A, A>],
    workers: u32,
) -> Result<Vec<Vec<bool, A>, A>, EvalFault>
    requires count { length jobs.now ≤ MAX_JOBS }
    requires one { AreOnOneCircuit jobs.now }
    ensures evaluated { IfOk result
        (λ all. AreEvaluated jobs.now (map (λ bits. bits.items) all.items)) }
    ensures few { IfOk result (λ _. 0 < length jobs.now → AreFew workers) }
    ensures fault { IfErr result
        (λ fault. (0 < length jobs.now) × AreEvaluatedBy workers jobs.now (Err fault)) }
{
    if jobs.is_empty() {
        return Ok(Vec::new(alloc));
    }
    evaluate_jobs(rt, alloc, jobs, workers, &Open)
}

/// The output values of each of a list of jobs, in this form, each with an empty line after it. The caller ensures that
/// the widths are together as many as the bits of each. The room is taken at once.
fn jobs_lines<A: Allocator + Copy>(
    alloc: A,
    form: ValueForm,
    widths: &[u32],
    outputs: &[Vec<bool, A>],
) -> Result<Vec<u8, A>, AllocError>
    requires { All (λ bits. sum widths.now ≡ length bits.items) outputs.now }
    ensures { IfOk result
        (λ lines. lines.items
        ≡ jobs_lines form widths.now (map (λ bits. bits.items) outputs.now)) }
{
    let longest = outputs.first().map_or(0, |bits| bits.len());
    let each = form.room(widths.len(), longest).saturating_add(1);
    let mut lines = Vec::with_capacity(alloc, outputs.len().saturating_mul(each))?;
    for bits in outputs {
        push_output_lines(&mut lines, form, widths, bits)?;
        lines.push(b'\n')?;
    }
    Ok(lines)
}
