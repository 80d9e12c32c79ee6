//! Jobs.

ghost use Rattle.std.specs.Prelude.{◌≡◌, ◌≢◌, length, IfOk, IfErr};
ghost use Rattle.std.specs.Result.{result_map_both};
ghost use Rattle.gc_netlist.specs.Circuit.{output_wires};

use crate::bind::{bound_labels, has_counts};
use crate::detached::{AsJob, DetachedJob, JobRef};
use crate::facts::Facts;
use crate::fault::{BindFault, EvalFault};
use gc_circuit::Circuit;
use gc_file::{Garbled, LabelFile};
use gc_half::RowPair;
use gc_label::Label;
use std::alloc::{Allocator, Global};
use std::marker::Model;
use std::snapshot::Snapshot;

/// The files of a job: a garbled file, and a label file for each input value, in any order.
#[derive(Drop)]
pub struct JobFiles<'f, A: Allocator = Global, B: Allocator = Global> {
    pub garbled: Garbled<A>,
    pub labels: &'f [LabelFile<B>],
}

/// What the evaluator of a garbled circuit is given: the circuit, what a garbled file of it holds, and a label for each
/// input wire. The type keeps that there are as many row pairs, decode bits and input labels as the circuit has AND
/// gates, output wires and input wires. Nothing else is known of them.
#[derive(Drop)]
pub struct Job<'c, A: Allocator = Global, C: Allocator = Global> {
    circuit: &'c Circuit<C>,
    detached: DetachedJob<A>,
}

impl<'c, A: Allocator, C: Allocator> Model for Job<'c, A, C> {
    ghost use Rattle.gc_job.specs.Job.{JobParts, IsWhole, job_of};

    ghost Value = { JobParts };

    ghost view = { λ j. job_of j.circuit.now j.detached.garbled j.detached.inputs };

    ghost invariant = { λ j.
        IsWhole (job_of j.circuit.now j.detached.garbled j.detached.inputs) };
}

impl<'c, A: Allocator + Copy, C: Allocator> Job<'c, A, C> {
    ghost use Rattle.sha2.specs.Sha256.{sha256};
    ghost use Rattle.gc_netlist.specs.Canon.{canonical_text};
    ghost use Rattle.gc_job.specs.Binding.{IsBound, FirstBindFault};

    /// The job of a circuit, a garbled file and a label file for each input value, in any order. The files are checked
    /// in this order, and the first fault is the result: 40 where the garbled file is another circuit's, 41 where it
    /// has other counts; then for each label file in turn 42 where the circuit has no such input value, 43 where that
    /// has another width, 44 where a file before it is for the same value; and 45 where an input value has no file. It
    /// allocates once, for the input labels.
    pub fn bind<B: Allocator>(
        alloc: A,
        circuit: &'c Circuit<C>,
        garbled: Garbled<A>,
        files: &[LabelFile<B>],
    ) -> Result<Job<'c, A, C>, BindFault>
        ensures ok { IfOk result (λ job. IsBound circuit.now garbled files.now job) }
        ensures err { IfErr result (λ fault. fault ≢ BindFault.Memory
            → FirstBindFault circuit.now garbled files.now fault) }
    {
        let files = JobFiles {
            garbled,
            labels: files,
        };
        Job::bind_by_digest(alloc, circuit, &circuit.digest(), files)
    }

    /// The job as [`Job::bind`] returns it, for a caller that has the digest of the circuit's canonical text: it is not
    /// taken again. A caller that takes this digest during other work may give the one that the garbled file has, and
    /// compare them afterwards: until they are equal nothing is known of the result.
    pub fn bind_by_digest<B: Allocator>(
        alloc: A,
        circuit: &'c Circuit<C>,
        digest: &[u8; 32],
        files: JobFiles<'_, A, B>,
    ) -> Result<Job<'c, A, C>, BindFault>
        ensures ok { digest.now ≡ sha256 (canonical_text circuit.now) → IfOk result
            (λ job. IsBound circuit.now files.entry.garbled files.entry.labels.now job) }
        ensures err { digest.now ≡ sha256 (canonical_text circuit.now)
            → IfErr result (λ fault. fault ≢ BindFault.Memory
            → FirstBindFault circuit.now files.entry.garbled files.entry.labels.now fault) }
    {
        let JobFiles { garbled, labels } = files;
        if garbled.digest() != *digest {
            return Err(BindFault::OtherCircuit);
        }
        if !has_counts(circuit, &garbled) {
            return Err(BindFault::OtherCounts);
        }
        circuit.law_lawful();
        let inputs = bound_labels(alloc, circuit, labels)?;
        Ok(Job {
            circuit,
            detached: DetachedJob::new(garbled, inputs),
        })
    }
}

impl<'c, A: Allocator, C: Allocator> Job<'c, A, C> {
    ghost use Rattle.gc_job.specs.Job.{IsWhole, job_of};
    ghost use Rattle.gc_job.specs.Evaluate.{IsDecodingOf};

    /// The law of the type: the job is whole. A call of it does nothing.
    #[inline(always)]
    pub fn law_whole(&self)
        ensures { IsWhole self.now }
    {
        let _ = &self.circuit;
    }

    /// The circuit.
    pub fn circuit(&self) -> &'c Circuit<C>
        ensures circuit { result.now ≡ self.now.circuit }
        ensures whole { IsWhole self.now }
    {
        self.circuit
    }

    /// The row pair of each AND gate, in file order.
    pub fn rows(&self) -> &[RowPair]
        ensures { result.now ≡ self.now.rows }
    {
        self.detached.garbled().rows()
    }

    /// The label of each input wire.
    pub fn inputs(&self) -> &[Label]
        ensures { result.now ≡ self.now.inputs }
    {
        self.detached.inputs()
    }

    /// The job without its circuit.
    pub fn detach(self) -> DetachedJob<A>
        ensures same { job_of self.entry.circuit result.garbled result.inputs ≡ self.entry }
        ensures whole { IsWhole self.entry }
    {
        self.law_whole();
        self.detached
    }

    /// The job as contracts see it. It has no bytes.
    pub fn facts(&self) -> Facts<A, C>
        ensures { result ≡ self.now }
    {
        Facts {
            circuit: Snapshot::of(self.circuit),
            detached: Snapshot::of(&self.detached),
        }
    }

    /// The output bits that these active labels of the output wires decode to ("Two Halves Make a Whole", the procedure
    /// De). In version 2 it is 48 at the first label whose hash is not the entry of its colour; in version 1 any label
    /// decodes. The caller ensures that there is a label for each output wire.
    pub fn decode<B: Allocator + Copy>(
        &self,
        alloc: B,
        labels: &[Label],
    ) -> Result<Vec<bool, B>, EvalFault>
        requires { length labels.now ≡ output_wires self.now.circuit }
        ensures { IsDecodingOf self.now labels.now
            (result_map_both (λ bits. bits.items) (λ fault. fault) result) }
    {
        self.as_job().decode(alloc, labels)
    }
}

impl<'c, A: Allocator, C: Allocator> AsJob<A, C> for Job<'c, A, C> {
    ghost job = { λ job. job };

    fn as_job(&self) -> JobRef<'_, A, C> {
        self.detached.with_circuit(self.circuit)
    }
}
