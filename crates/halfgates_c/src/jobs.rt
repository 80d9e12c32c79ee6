//! Lists of jobs.

ghost use Rattle.std.specs.Prelude.{◌≡◌, ◌≢◌, ◌≤◌, IfErr, IfOk, MatchResult, Some, length, map, pos};
ghost use Rattle.gc_kept.specs.Jobs.{AreAllEvaluated, HasJobListFault};
ghost use Rattle.gc_kept.specs.declared.held.Held.TheVariants as held;
ghost use Rattle.halfgates_c.specs.ReturnsCode.{ReturnsCode};
ghost use Rattle.halfgates_c.specs.Holding.{OfJob, OfJobs, OfNoJobs};

use crate::borrow::Borrow;
use crate::code::{MEMORY, NULL_POINTER, WRONG_HANDLE, code_of};
use crate::handle::Handle;
use crate::list::{put_all, take_all};
use gc_kept::{Held, KeptJob, evaluate_list};
use std::alloc::Global;

/// The job that a handle holds, or else the code.
fn job_of(borrow: &Borrow<Held>) -> Result<&KeptJob, i32>
    ensures { MatchResult result (λ job. borrow.now.value ≡ Some (held.Job job.now))
        (λ code. OfJob borrow.now.value code (λ job. ⊥)) }
{
    match borrow.get() {
        Some(Held::Job(job)) => Ok(job),
        Some(_) => Err(WRONG_HANDLE),
        None => Err(NULL_POINTER),
    }
}

/// The jobs that these handles hold, or else the code of the first that holds none.
pub(crate) fn jobs_of(alloc: Global, borrows: &[Borrow<Held>]) -> Result<Vec<&KeptJob, Global>, i32>
    ensures ok { IfOk result (λ jobs.
        map (λ b. b.value) borrows.now
        ≡ map (λ j. Some (held.Job j)) (map (λ j. j.now) jobs.items)) }
    ensures code { IfErr result (OfNoJobs (map (λ b. b.value) borrows.now)) }
{
    let Ok(mut jobs) = Vec::with_capacity(alloc, borrows.len()) else {
        return Err(MEMORY);
    };
    for borrow in borrows {
        let job = job_of(borrow)?;
        if jobs.push(job).is_err() {
            return Err(MEMORY);
        }
    }
    Ok(jobs)
}

/// Evaluates the jobs that these handles hold.
fn evaluate_held(alloc: Global, borrows: &[Borrow<Held>], bits: &mut [u8]) -> i32
    ensures answer { OfJobs (map (λ b. b.value) borrows.now) result (λ jobs.
        ReturnsCode result (AreAllEvaluated jobs bits.old bits.new)
        (HasJobListFault jobs (length bits.old))) }
    ensures kept { result ≢ pos 0 → bits.new ≡ bits.old }
{
    match jobs_of(alloc, borrows) {
        Ok(jobs) => code_of(evaluate_list(alloc, &jobs, bits)),
        Err(code) => code,
    }
}

/// Evaluates jobs, and writes the bits of the output wires, one job's after another's.
#[unsafe(no_mangle)]
pub extern "C" fn halfgates_evaluate_many(
    alloc: Global,
    jobs: &mut [Handle],
    bits: &mut [u8],
) -> i32
    ensures answer { OfJobs (map (λ h. h.held) jobs.old) result (λ js.
        ReturnsCode result (AreAllEvaluated js bits.old bits.new)
        (HasJobListFault js (length bits.old))) }
    ensures back { jobs.new ≡ jobs.old }
    ensures kept { result ≢ pos 0 → bits.new ≡ bits.old }
{
    let Ok(borrows) = take_all(alloc, jobs) else {
        return MEMORY;
    };
    let code = evaluate_held(alloc, &borrows, bits);
    put_all(borrows, jobs);
    code
}
