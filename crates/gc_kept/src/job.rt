//! Jobs that hold their circuit.

ghost use Rattle.std.specs.Prelude.{◌≡◌, ◌<◌, ◌^◌, length, IfOk, IfErr, IsTrue, OnOk, OnErr};
ghost use Rattle.gc_netlist.specs.Circuit.{output_wires};
ghost use Rattle.gc_kept.specs.Job.{IsBoundJob, HasBoundJobFault, HasOutputBits, HasEvaluationFault};
ghost use Rattle.gc_kept.specs.Labels.{AreJobLabels, HasJobLabelsFault};

use crate::bits::write_bits;
use crate::circuit::KeptCircuit;
use crate::fault::KeptFault;
use crate::label_bytes::write_labels;
use crate::label_files::read_label_files;
use crate::room::has_room;
use gc_file::read_garbled;
use gc_file::sizes::LABEL;
use gc_job::{AsJob, DetachedJob, EvalFault, Job, JobFiles, JobRef};
use std::alloc::Global;
use std::marker::Model;

/// A job, with its circuit.
#[derive(Drop)]
pub struct KeptJob {
    circuit: KeptCircuit,
    job: DetachedJob<Global>,
}

impl Model for KeptJob {
    ghost use Rattle.gc_job.specs.Job.{JobParts, IsWhole, job_of};

    ghost Value = { JobParts };

    ghost view = { λ j. job_of j.circuit.netlist j.job.garbled j.job.inputs };

    ghost invariant = { λ j. IsWhole (job_of j.circuit.netlist j.job.garbled j.job.inputs) };
}

/// The bytes of a job's files.
#[derive(Clone, Copy)]
pub struct JobBytes<'a> {
    /// The garbled file.
    pub garbled: &'a [u8],
    /// The label files, one after another.
    pub labels: &'a [u8],
    /// The number of bytes of each label file.
    pub lengths: &'a [usize],
}

impl KeptCircuit {
    /// Binds a garbled file and label files to a job, as [`Job::bind`] does. Nothing of them is trusted. It refuses a
    /// circuit without a digest (68).
    pub fn bind(&self, alloc: Global, bytes: JobBytes<'_>) -> Result<KeptJob, KeptFault>
        ensures digest { OnOk result (IsTrue self.now.has_digest) }
        ensures ok { IfOk result (IsBoundJob self.now.netlist
            bytes.entry.garbled.now bytes.entry.labels.now bytes.entry.lengths.now) }
        ensures fault { IfErr result (HasBoundJobFault self.now
            bytes.entry.garbled.now bytes.entry.labels.now bytes.entry.lengths.now) }
    {
        let digest = self.digest()?;
        let garbled = read_garbled(alloc, bytes.garbled)?;
        let labels = read_label_files(alloc, bytes.labels, bytes.lengths)?;
        let files = JobFiles {
            garbled,
            labels: &labels,
        };
        let job = Job::bind_by_digest(alloc, self.circuit(), digest, files)?;
        Ok(KeptJob {
            job: job.detach(),
            circuit: self.again()?,
        })
    }
}

impl AsJob<Global, Global> for &KeptJob {
    ghost job = { λ job. job.now };

    fn as_job(&self) -> JobRef<'_> {
        self.borrowed()
    }
}

impl KeptJob {
    /// The job, borrowed.
    pub(crate) fn borrowed(&self) -> JobRef<'_>
        ensures { result ≡ self.now }
    {
        self.job.with_circuit(self.circuit.circuit())
    }

    /// How many output wires the circuit has.
    pub(crate) fn outputs(&self) -> usize
        ensures outputs { result ≡ output_wires self.now.circuit }
        ensures few { result < 2 ^ 32 }
    {
        self.circuit.circuit().output_wires() as usize
    }

    /// Evaluates the job, as [`gc_job::evaluate`] does, and writes the bits of the output wires to the front of a
    /// buffer. It refuses a buffer without a byte for each output wire (61). After a fault the buffer is as it was.
    pub fn evaluate(&self, alloc: Global, bits: &mut [u8]) -> Result<(), KeptFault>
        ensures ok { OnOk result (HasOutputBits self.now bits.old bits.new) }
        ensures fault { IfErr result (HasEvaluationFault self.now (length bits.old)) }
        ensures unwritten { OnErr result (bits.new ≡ bits.old) }
    {
        has_room(self.outputs(), bits)?;
        let found = self.borrowed().evaluate(alloc)?;
        write_bits(&found, bits);
        Ok(())
    }

    /// Writes the active labels of the output wires, 16 bytes each, to the front of a buffer, as
    /// [`gc_job::output_labels`] gives them. It refuses a buffer without room for them (61). After a fault the buffer
    /// is as it was.
    pub fn output_labels(&self, alloc: Global, outputs: &mut [u8]) -> Result<(), KeptFault>
        ensures ok { OnOk result (AreJobLabels self.now outputs.old outputs.new) }
        ensures fault { IfErr result (HasJobLabelsFault self.now (length outputs.old)) }
        ensures unwritten { OnErr result (outputs.new ≡ outputs.old) }
    {
        has_room(LABEL * self.outputs(), outputs)?;
        let Ok(labels) = self.borrowed().output_labels(alloc) else {
            return Err(KeptFault::Evaluation(EvalFault::Memory));
        };
        write_labels(&labels, outputs);
        Ok(())
    }
}
