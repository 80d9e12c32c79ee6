//! Evaluating a garbled file and label files.

ghost use Rattle.std.specs.Prelude.{◌≡◌, IfOk, IfErr};
ghost use Rattle.sha2.specs.Sha256.{sha256};
ghost use Rattle.gc_netlist.specs.Canon.{canonical_text};
ghost use Rattle.gc_workers.specs.Workers.{AreFew};
ghost use Rattle.gc_command.specs.Job.{DecodeTo, HasJobFault};

use crate::binder::Binder;
use crate::fault::Fault;
use gc_eval::evaluate_many;
use gc_file::{Garbled, LabelFile};
use gc_job::{Job, JobFiles, evaluate};
use gc_workers::Open;
use std::alloc::Allocator;
use std::sync::Wait;
use std::thread::Threads;

/// A garbled file, and label files.
pub type GivenFiles<A> = (Garbled<A>, Vec<LabelFile<A>, A>);

impl<A: Allocator + Copy + Send + Sync> Binder<'_, A> {
    /// The output bits that a garbled file and label files decode to, with this many workers. Nothing is known of the
    /// result where the digest isn't the circuit's.
    pub fn evaluate_files<R: Threads + Wait + Sync>(
        &self,
        rt: &R,
        given: GivenFiles<A>,
        workers: u32,
    ) -> Result<Vec<bool, A>, Fault>
        ensures decoded { self.now.digest.now ≡ sha256 (canonical_text self.now.circuit.now)
            → IfOk result
            (λ bits. DecodeTo self.now.circuit.now given.0 given.1.items bits.items) }
        ensures workers { IfOk result (λ _. AreFew workers) }
        ensures fault { self.now.digest.now ≡ sha256 (canonical_text self.now.circuit.now)
            → IfErr result (HasJobFault self.now.circuit.now given.0 given.1.items workers) }
    {
        let (garbled, labels) = given;
        let files = JobFiles {
            garbled,
            labels: &labels,
        };
        let job = Job::bind_by_digest(self.alloc, self.circuit, self.digest, files)?;
        if workers == 1 {
            return Ok(evaluate(self.alloc, &job)?);
        }
        Ok(evaluate_many(rt, self.alloc, &job, workers, &Open)?)
    }
}
