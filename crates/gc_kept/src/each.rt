//! Lists of jobs, each with an outcome of its own.

ghost use Rattle.std.specs.Prelude.{◌≡◌, length, map, IfOk, IfErr, IfSome, Ok, OnErr};
ghost use Rattle.gc_netlist.specs.Circuit.{output_wires};
ghost use Rattle.gc_job.specs.Evaluate.{IsEvaluated};
ghost use Rattle.gc_kept.specs.Each.{AreOutcomes, HasOutputsRoomFault, IsOutcome};

use crate::bits::write_bits;
use crate::fault::KeptFault;
use crate::job::KeptJob;
use crate::jobs::{has_output_room, known_of};
use std::alloc::Global;

/// Evaluates these jobs on one thread, each as [`KeptJob::evaluate`] does, and writes the bits of the output wires, one
/// job's after another's, to the front of a buffer. It returns the outcome of each: where that is a fault, the bytes
/// for the job's bits are as they were. It refuses a buffer without a byte for each output wire of all jobs (61), and
/// then no job is evaluated.
pub fn evaluate_each(
    alloc: Global,
    jobs: &[&KeptJob],
    bits: &mut [u8],
) -> Result<Vec<Result<(), KeptFault>, Global>, KeptFault>
    ensures ok { IfOk result (λ outcomes.
        AreOutcomes (map (λ j. j.now) jobs.now) bits.old bits.new outcomes.items) }
    ensures fault { IfErr result (HasOutputsRoomFault (map (λ j. j.now) jobs.now)
        (length bits.old)) }
    ensures unwritten { OnErr result (bits.new ≡ bits.old) }
{
    has_output_room(jobs, bits)?;
    let mut known = known_of(alloc, jobs)?;
    let mut outcomes = Vec::with_capacity(alloc, jobs.len())?;
    let mut place = 0;
    for i in 0..jobs.len() {
        let job = jobs[i];
        let end = place + job.outputs();
        let outcome = job.outcome(alloc, known[i].take(), &mut bits[place..end]);
        outcomes.push_reserved(outcome);
        place = end;
    }
    Ok(outcomes)
}

impl KeptJob {
    /// Writes the bits of the output wires: these, where some are known, and else those of an evaluation. The caller
    /// ensures that there is a byte for each. After a fault they are as they were.
    fn outcome(
        &self,
        alloc: Global,
        known: Option<Vec<bool, Global>>,
        bits: &mut [u8],
    ) -> Result<(), KeptFault>
        requires room { length bits.old ≡ output_wires self.now.circuit }
        requires known { IfSome known (λ bits. IsEvaluated self.now (Ok bits.items)) }
        ensures { IsOutcome self.now bits.old bits.new result }
    {
        self.borrowed().law_whole();
        match known {
            Some(found) => {
                write_bits(&found, bits);
                Ok(())
            }
            None => self.evaluate(alloc, bits),
        }
    }
}
