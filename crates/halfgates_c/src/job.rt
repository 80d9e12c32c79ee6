//! Jobs.

ghost use Rattle.std.specs.Prelude.{◌≡◌, ◌≢◌, IfErr, IsTrue, OnErr, OnOk, length, pos};
ghost use Rattle.core.specs.Ptr.{as_mut_ptr};
ghost use denote.RawPtr.{Testable};
ghost use Rattle.gc_kept.specs.Job.{HasBoundJobFault, HasKeptJobFault, HasOutputBits, HasEvaluationFault};
ghost use Rattle.gc_kept.specs.Labels.{AreJobLabels, HasJobLabelsFault};
ghost use Rattle.halfgates_c.specs.ReturnsCode.{ReturnsCode};
ghost use Rattle.halfgates_c.specs.Holding.{OfDigested, OfJob};
ghost use Rattle.halfgates_c.specs.Reading.{HoldsJob};

use crate::code::{NULL_POINTER, code_of};
use crate::handle::{Handle, on_held};
use crate::null::is_null;
use crate::slot::Slot;
use gc_kept::{Held, JobBytes, KeptCircuit, KeptFault};
use std::alloc::Global;

/// Binds files to a job of a circuit, and hands it out.
fn bind(
    alloc: Global,
    circuit: &KeptCircuit,
    files: JobBytes<'_>,
    slot: &mut Slot,
) -> Result<(), KeptFault>
    ensures digest { OnOk result (IsTrue circuit.now.has_digest) }
    ensures ok { OnOk result (HoldsJob circuit.now.netlist files.entry.garbled.now
        files.entry.labels.now files.entry.lengths.now slot.new) }
    ensures fault { IfErr result (HasBoundJobFault circuit.now
        files.entry.garbled.now files.entry.labels.now files.entry.lengths.now) }
    ensures kept { OnErr result (slot.new ≡ slot.old) }
{
    let job = circuit.bind(alloc, files)?;
    slot.hand_out(alloc, Held::Job(job))
}

/// Binds a garbled file and label files to a job.
#[unsafe(no_mangle)]
pub extern "C" fn halfgates_job_bind(
    alloc: Global,
    circuit: &mut Handle,
    garbled: &[u8],
    labels: &[u8],
    lengths: &[usize],
    job: &mut Slot,
) -> i32
    requires job { Testable (as_mut_ptr job) }
    ensures answer { OfDigested circuit.old.held result (λ c.
        ReturnsCode result (HoldsJob c garbled.now labels.now lengths.now job.new)
        (HasKeptJobFault c garbled.now labels.now lengths.now)) }
    ensures back { circuit.new ≡ circuit.old }
    ensures kept { result ≢ pos 0 → job.new ≡ job.old }
{
    if is_null(job) {
        return NULL_POINTER;
    }
    let files = JobBytes {
        garbled,
        labels,
        lengths,
    };
    on_held!(circuit, Circuit(circuit) => code_of(bind(alloc, circuit, files, job)))
}

/// Frees a job. Null is allowed.
#[unsafe(no_mangle)]
pub extern "C" fn halfgates_job_free(job: Slot) {
    drop(job);
}

/// Evaluates a job, and writes the bits of all output wires.
#[unsafe(no_mangle)]
pub extern "C" fn halfgates_evaluate(alloc: Global, job: &mut Handle, bits: &mut [u8]) -> i32
    ensures answer { OfJob job.old.held result (λ j.
        ReturnsCode result (HasOutputBits j bits.old bits.new)
        (HasEvaluationFault j (length bits.old))) }
    ensures back { job.new ≡ job.old }
    ensures kept { result ≢ pos 0 → bits.new ≡ bits.old }
{
    on_held!(job, Job(job) => code_of(job.evaluate(alloc, bits)))
}

/// Evaluates a job, and writes the active labels of all output wires.
#[unsafe(no_mangle)]
pub extern "C" fn halfgates_job_output_labels(
    alloc: Global,
    job: &mut Handle,
    outputs: &mut [u8],
) -> i32
    ensures answer { OfJob job.old.held result (λ j.
        ReturnsCode result (AreJobLabels j outputs.old outputs.new)
        (HasJobLabelsFault j (length outputs.old))) }
    ensures back { job.new ≡ job.old }
    ensures kept { result ≢ pos 0 → outputs.new ≡ outputs.old }
{
    on_held!(job, Job(job) => code_of(job.output_labels(alloc, outputs)))
}
