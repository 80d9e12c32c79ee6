//! What a closed board says: labels, how many gates are done, and the output bits.

ghost use Rattle.std.specs.Prelude.{◌≡◌, ◌≢◌, ◌<◌, IfSome, IfNone, IfOk, IfErr, MatchOption, Ok, Err};
ghost use Rattle.gc_netlist.specs.Solution.{on_outputs};
ghost use Rattle.gc_job.specs.ActiveLabels.{active, gates_of};
ghost use Rattle.gc_job.specs.Evaluate.{IsEvaluated};
ghost use Rattle.gc_eval.specs.Done.{HasLabel, HasOutputs, LacksOutput, done_of, job_in};

use crate::active::Active;
use gc_circuit::Memory;
use gc_job::EvalFault;
use gc_label::Label;
use gc_workers::DONE;
use std::alloc::Allocator;

impl<'j, 'c, B: Allocator, A: Allocator, C: Allocator> Active<'j, 'c, B, A, C> {
    /// The active label of a wire, exactly where it is an input wire or the gate that sets it is done. The caller
    /// ensures that there is such a wire.
    pub fn label(&self, wire: u32) -> Option<Label>
        requires { wire < (job_in self.now).circuit.wires }
        ensures some { IfSome result (λ label. (label ≡ active (job_in self.now) wire)
            × HasLabel self.now wire) }
        ensures none { IfNone result (HasLabel self.now wire → ⊥) }
    {
        let job = self.job;
        if wire < job.circuit().input_wires() {
            return Some(job.input(wire));
        }
        let Some(gate) = self.wiring.setter(wire) else {
            return None;
        };
        let first = 3 * gate as usize;
        if self.closed.word(first) == DONE {
            let low = self.closed.word(first + 1);
            let high = self.closed.word(first + 2);
            Some(Label::from_halves(low, high))
        } else {
            None
        }
    }

    /// How many gates are done.
    pub fn done(&self) -> u32
        ensures { result ≡ done_of self.now (gates_of (job_in self.now)) }
    {
        let mut done = 0;
        for gate in 0..self.job.circuit().gates() {
            if self.closed.word(3 * gate as usize) == DONE {
                done += 1;
            }
        }
        done
    }

    /// The labels of the output wires, in order, where each has one.
    fn output_labels<D: Allocator + Copy>(&self, alloc: D) -> Result<Option<Vec<Label, D>>, Memory>
        ensures { IfOk result (λ o. MatchOption o (LacksOutput self.now)
            (λ v. (v.items ≡ on_outputs (job_in self.now).circuit (active (job_in self.now)))
            × HasOutputs self.now)) }
    {
        let circuit = self.job.circuit();
        let count = circuit.output_wires();
        let first = circuit.wires() - count;
        let mut labels = Vec::with_capacity(alloc, count as usize)?;
        for i in 0..count {
            let Some(label) = self.label(first + i) else {
                return Ok(None);
            };
            labels.push(label)?;
        }
        Ok(Some(labels))
    }

    /// The output bits, in wire order: what the active labels of the output wires decode to, as `evaluate` returns it.
    /// None exactly where an output wire has no label; in version 2 it is 48 at the first output whose label the
    /// garbled file doesn't recognise.
    pub fn decode<D: Allocator + Copy>(&self, alloc: D) -> Result<Option<Vec<bool, D>>, EvalFault>
        ensures ok { IfOk result (λ o. MatchOption o (LacksOutput self.now)
            (λ v. IsEvaluated (job_in self.now) (Ok v.items) × HasOutputs self.now)) }
        ensures err { IfErr result (λ fault. IsEvaluated (job_in self.now) (Err fault)) }
        // Where an output wire has no label the result is None, and never 48.
        ensures recognised { IfErr result (λ fault. fault ≢ EvalFault.Memory
            → HasOutputs self.now) }
    {
        self.job.law_whole();
        let Some(labels) = self.output_labels(alloc)? else {
            return Ok(None);
        };
        match self.job.decode(alloc, &labels) {
            Ok(bits) => Ok(Some(bits)),
            Err(fault) => Err(fault),
        }
    }
}
