//! Lists of jobs.

ghost use Rattle.std.specs.Prelude.{◌≡◌, ◌↔◌, ◌+◌, ◌<◌, ◌≤◌, length, map, flat_map, IfOk, IfErr, IsTrue, OnOk, OnErr};
ghost use Rattle.gc_job.specs.Jobs.{AreBeside, AreKnown};
ghost use Rattle.gc_kept.specs.Files.{HasRoomFault};
ghost use Rattle.gc_kept.specs.Jobs.{AreAllEvaluated, HasJobListFault, outputs_of};

use crate::bits::write_bits;
use crate::fault::KeptFault;
use crate::job::KeptJob;
use gc_job::{MAX_GROUP, evaluate_group, evaluate_rest, none_known};
use std::alloc::{AllocError, Global};

/// Evaluates these jobs on one thread, each as [`KeptJob::evaluate`] does, and writes the bits of the output wires, one
/// job's after another's, to the front of a buffer. Where jobs that follow one another are on one circuit, up to four
/// of them are evaluated side by side. It refuses a buffer without a byte for each output wire of all jobs (61); else
/// the fault is that of the first job that has one. After a fault the buffer is as it was.
#[tactic(auto, using(crate::proofs::JobsLemmas::none_evaluated))]
pub fn evaluate_list(alloc: Global, jobs: &[&KeptJob], bits: &mut [u8]) -> Result<(), KeptFault>
    ensures ok { OnOk result (AreAllEvaluated (map (λ j. j.now) jobs.now) bits.old bits.new) }
    ensures fault { IfErr result (HasJobListFault (map (λ j. j.now) jobs.now) (length bits.old)) }
    ensures unwritten { OnErr result (bits.new ≡ bits.old) }
{
    has_output_room(jobs, bits)?;
    if jobs.is_empty() {
        return Ok(());
    }
    let known = known_of(alloc, jobs)?;
    let found = evaluate_rest(alloc, jobs, known)?;
    let all = joined(alloc, &found)?;
    write_bits(&all, bits);
    Ok(())
}

/// Checks that a buffer has a byte for each output wire of these jobs.
pub(crate) fn has_output_room(jobs: &[&KeptJob], buffer: &[u8]) -> Result<(), KeptFault>
    ensures ok { OnOk result (outputs_of (map (λ j. j.now) jobs.now) ≤ length buffer.now) }
    ensures fault { IfErr result
        (HasRoomFault (outputs_of (map (λ j. j.now) jobs.now)) (length buffer.now)) }
{
    let mut room = buffer.len();
    for job in jobs {
        let outputs = job.outputs();
        if room < outputs {
            return Err(KeptFault::SmallBuffer);
        }
        room -= outputs;
    }
    Ok(())
}

/// For each job its output bits, where evaluating jobs side by side gives some.
pub(crate) fn known_of(
    alloc: Global,
    jobs: &[&KeptJob],
) -> Result<Vec<Option<Vec<bool, Global>>, Global>, AllocError>
    ensures count { IfOk result (λ v. length v.items ≡ length jobs.now) }
    ensures known { IfOk result (λ v. AreKnown (map (λ j. j.now) jobs.now) v.items) }
{
    let mut known = none_known(alloc, jobs.len())?;
    let mut next = 0;
    while next < jobs.len() {
        let end = end_of_group(jobs, next);
        evaluate_group(alloc, jobs, next..end, known.as_mut_slice());
        next = end;
    }
    Ok(known)
}

/// Where the jobs end that are evaluated together, from one on: they are on one circuit.
fn end_of_group(jobs: &[&KeptJob], first: usize) -> usize
    requires { first < length jobs.now }
    ensures some { first < result }
    ensures few { result ≤ first + MAX_GROUP }
    ensures within { result ≤ length jobs.now }
    ensures one { AreBeside (map (λ j. j.now) jobs.now) first result }
{
    let last = (first + MAX_GROUP).min(jobs.len());
    let mut end = first + 1;
    while end < last && is_beside(jobs[end], jobs[first]) {
        end += 1;
    }
    end
}

/// Whether two jobs are on equal circuits.
fn is_beside(job: &KeptJob, other: &KeptJob) -> bool
    ensures { IsTrue result ↔ (job.now.circuit ≡ other.now.circuit) }
{
    job.borrowed().circuit().equals(other.borrowed().circuit())
}

/// These bits, one list's after another's.
fn joined(alloc: Global, lists: &[Vec<bool, Global>]) -> Result<Vec<bool, Global>, AllocError>
    ensures { IfOk result (λ bits.
        bits.items ≡ flat_map (λ list. list) (map (λ list. list.items) lists.now)) }
{
    let mut bits = Vec::new(alloc);
    for list in lists {
        bits.extend_from_slice(list)?;
    }
    Ok(bits)
}
