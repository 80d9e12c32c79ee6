//! Evaluating a job on one thread: first to the active labels of the output wires, and then to bits.

ghost use Rattle.std.specs.Prelude.{◌≡◌, ℕ, Bool, List, length, IfOk, MatchResult};
ghost use Rattle.std.specs.Result.{result_map_both};
ghost use Rattle.gc_netlist.specs.Circuit.{output_wires};
ghost use Rattle.gc_circuit.specs.Meaning.{AreOutputs};
ghost use Rattle.gc_half.specs.Joined.{AreOutputLabels};
ghost use Rattle.gc_job.specs.Evaluate.{IsEvaluated};
ghost use Rattle.gc_job.specs.Honest.{IsHonest};

use crate::detached::{AsJob, JobRef};
use crate::fault::EvalFault;
use crate::job::Job;
use gc_circuit::Memory;
use gc_half::{FirstAnd, evaluate_labels};
use gc_label::Label;
use std::alloc::Allocator;

/// The active labels of a job's output wires, in wire order, on one thread ("Two Halves Make a Whole", the procedure
/// Ev). Nothing of the job is trusted: they are those of an evaluation of its rows on its input labels, and any labels
/// are active ones of some rows. [`Job::decode`] gives the bits.
pub fn output_labels<A: Allocator, B: Allocator + Copy, C: Allocator>(
    alloc: B,
    job: &Job<'_, A, C>,
) -> Result<Vec<Label, B>, Memory>
    ensures { IfOk result (λ labels.
        AreOutputLabels 0 job.now.circuit job.now.rows job.now.inputs labels.items) }
{
    job.as_job().output_labels(alloc)
}

/// Evaluates a job on one thread: the output bits, in wire order, that its [`output_labels`] decode to. Nothing of the
/// job is trusted: the bits are what an evaluation of its rows on its input labels decodes to ("Two Halves Make a
/// Whole", the procedures Ev and De). In version 2 the fault is 48 at the first output whose active label the garbled
/// file does not recognise. An honest job gives the circuit's outputs, and never 48.
pub fn evaluate<A: Allocator, B: Allocator + Copy, C: Allocator>(
    alloc: B,
    job: &Job<'_, A, C>,
) -> Result<Vec<bool, B>, EvalFault>
    ensures evaluated { IsEvaluated job.now
        (result_map_both (λ bits. bits.items) (λ fault. fault) result) }
    ensures honest { (seed : List ℕ) (bits : List Bool) → IsHonest job.now seed bits →
        MatchResult result (λ outputs. AreOutputs job.now.circuit bits outputs.items)
        (λ fault. fault ≡ EvalFault.Memory) }
{
    job.as_job().evaluate(alloc)
}

impl<'j, A: Allocator, C: Allocator> JobRef<'j, A, C> {
    /// The active labels of the output wires, as [`output_labels`] returns them.
    pub fn output_labels<B: Allocator + Copy>(&self, alloc: B) -> Result<Vec<Label, B>, Memory>
        ensures { IfOk result (λ labels.
            AreOutputLabels 0 self.now.circuit self.now.rows self.now.inputs labels.items) }
    {
        evaluate_labels(alloc, self.circuit(), FirstAnd::ZERO, self.evaluation())
    }

    /// Evaluates the job on one thread, as [`evaluate`] does.
    pub fn evaluate<B: Allocator + Copy>(&self, alloc: B) -> Result<Vec<bool, B>, EvalFault>
        ensures evaluated { IsEvaluated self.now
            (result_map_both (λ bits. bits.items) (λ fault. fault) result) }
        ensures honest { (seed : List ℕ) (bits : List Bool) → IsHonest self.now seed bits →
            MatchResult result (λ outputs. AreOutputs self.now.circuit bits outputs.items)
            (λ fault. fault ≡ EvalFault.Memory) }
        ensures count { IfOk result (λ bits. length bits.items ≡ output_wires self.now.circuit) }
    {
        self.law_whole();
        let labels = self.output_labels(alloc)?;
        self.decode(alloc, &labels)
    }
}
