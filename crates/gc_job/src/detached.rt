//! Jobs that own no circuit, and borrowed jobs.

ghost use Rattle.std.specs.Prelude.{◌≡◌};
ghost use Rattle.gc_job.specs.Job.{IsWhole, job_of};

use gc_circuit::Circuit;
use gc_file::Garbled;
use gc_half::RowPair;
use gc_label::Label;
use std::alloc::{Allocator, Global};
use std::marker::Model;

/// A job without its circuit, for a caller that keeps the two apart: what a garbled file holds, and a label for each
/// input wire.
#[derive(Drop)]
pub struct DetachedJob<A: Allocator = Global> {
    garbled: Garbled<A>,
    inputs: Vec<Label, A>,
}

impl<A: Allocator> Model for DetachedJob<A> {
    ghost use Rattle.gc_job.specs.Job.{DetachedParts};

    ghost Value = { DetachedParts };

    ghost view = { λ j. record { garbled = j.garbled; inputs = j.inputs.items } };
}

impl<A: Allocator> DetachedJob<A> {
    pub(crate) fn new(garbled: Garbled<A>, inputs: Vec<Label, A>) -> DetachedJob<A>
        ensures { result ≡ record { garbled = garbled; inputs = inputs.items } }
    {
        DetachedJob { garbled, inputs }
    }

    /// What the garbled file holds.
    pub(crate) fn garbled(&self) -> &Garbled<A>
        ensures { result.now ≡ self.now.garbled }
    {
        &self.garbled
    }

    /// The label of each input wire.
    pub(crate) fn inputs(&self) -> &[Label]
        ensures { result.now ≡ self.now.inputs }
    {
        &self.inputs
    }

    /// The job with its circuit. The caller ensures that it is a job of this circuit.
    pub fn with_circuit<'j, C: Allocator>(&'j self, circuit: &'j Circuit<C>) -> JobRef<'j, A, C>
        requires { IsWhole (job_of circuit.now self.now.garbled self.now.inputs) }
        ensures { result ≡ job_of circuit.now self.now.garbled self.now.inputs }
    {
        JobRef {
            circuit,
            detached: self,
        }
    }
}

/// What has a job.
pub trait AsJob<A: Allocator, C: Allocator> {
    ghost use Rattle.std.specs.Prelude.{◌≡◌};
    ghost use Rattle.gc_job.specs.Job.{JobParts};

    /// The job.
    ghost job: { Self → JobParts };

    /// The job, borrowed.
    fn as_job(&self) -> JobRef<'_, A, C>
        ensures { result ≡ job self.now };
}

/// A borrowed job.
#[derive(Drop)]
pub struct JobRef<'j, A: Allocator = Global, C: Allocator = Global> {
    circuit: &'j Circuit<C>,
    detached: &'j DetachedJob<A>,
}

impl<'j, A: Allocator, C: Allocator> Model for JobRef<'j, A, C> {
    ghost use Rattle.gc_job.specs.Job.{JobParts, IsWhole, job_of};

    ghost Value = { JobParts };

    ghost view = { λ j. job_of j.circuit.now j.detached.now.garbled j.detached.now.inputs };

    ghost invariant = { λ j.
        IsWhole (job_of j.circuit.now j.detached.now.garbled j.detached.now.inputs) };
}

impl<'j, A: Allocator, C: Allocator> JobRef<'j, A, C> {
    /// The law of the type: the job is whole. A call of it does nothing.
    #[inline(always)]
    pub fn law_whole(&self)
        ensures { IsWhole self.now }
    {
        let _ = &self.circuit;
    }

    /// The circuit.
    pub fn circuit(&self) -> &'j Circuit<C>
        ensures circuit { result.now ≡ self.now.circuit }
        ensures whole { IsWhole self.now }
    {
        self.circuit
    }

    /// What the garbled file holds.
    pub(crate) fn garbled(&self) -> &'j Garbled<A>
        ensures version { result.now.version ≡ self.now.version }
        ensures decode_bits { result.now.decode_bits ≡ self.now.decode_bits }
        ensures entries { result.now.entries ≡ self.now.entries }
    {
        self.detached.garbled()
    }

    /// The row pair of each AND gate, in file order.
    pub(crate) fn rows(&self) -> &'j [RowPair]
        ensures { result.now ≡ self.now.rows }
    {
        self.detached.garbled().rows()
    }

    /// The label of each input wire.
    pub(crate) fn inputs(&self) -> &'j [Label]
        ensures { result.now ≡ self.now.inputs }
    {
        self.detached.inputs()
    }
}
