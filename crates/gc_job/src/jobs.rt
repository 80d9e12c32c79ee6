//! Lists of jobs, on one thread.

ghost use Rattle.std.specs.Prelude.{◌≡◌, ◌+◌, ◌<◌, ◌≤◌, List, length, map, slice_get, IfOk, IfSome, Some, Ok};
ghost use Rattle.std.specs.Result.{result_map_both};
ghost use Rattle.gc_netlist.specs.Circuit.{output_wires};
ghost use Rattle.gc_job.specs.Job.{JobParts};
ghost use Rattle.gc_job.specs.Evaluate.{IsEvaluated};
ghost use Rattle.gc_job.specs.Jobs.{AreBeside, AreBitsOf, AreKnown, EvaluateTo};

use crate::detached::{AsJob, JobRef};
use crate::fault::EvalFault;
use crate::four::evaluate_four;
use gc_half::Four;
use std::alloc::{AllocError, Allocator};
use std::ops::Range;

/// The job at a place. The caller ensures that there is such a place.
#[tactic(auto, using(std::proofs::lemmas::Option::gets))]
fn job_at<A: Allocator, C: Allocator, J: AsJob<A, C>>(jobs: &[J], place: usize) -> JobRef<'_, A, C>
    requires { place < length jobs.now }
    ensures { slice_get (map J.job jobs.now) place ≡ Some result }
{
    jobs[place].as_job()
}

/// A place for the output bits of each job, for this number of jobs, with none yet. It allocates once.
pub fn none_known<B: Allocator + Copy>(
    alloc: B,
    count: usize,
) -> Result<Vec<Option<Vec<bool, B>>, B>, AllocError>
    ensures count { IfOk result (λ v. length v.items ≡ count) }
    ensures known { IfOk result (λ v. (jobs : List JobParts) → AreKnown jobs v.items) }
{
    let mut slots = Vec::with_capacity(alloc, count)?;
    for _i in 0..count {
        slots.push(None)?;
    }
    Ok(slots)
}

/// The most jobs of a group that is evaluated side by side.
pub const MAX_GROUP: usize = 4;

/// Evaluates the jobs at these places, which are on one circuit, side by side, and puts the output bits of each at its
/// place: those that [`evaluate`](crate::evaluate) returns, and none where it returns a fault or memory runs out. Of
/// two or three jobs, the last one takes the lanes that are left. The caller ensures that there are these jobs, and a
/// place for the bits of each job.
pub fn evaluate_group<A: Allocator, B: Allocator + Copy, C: Allocator, J: AsJob<A, C>>(
    alloc: B,
    jobs: &[J],
    places: Range<usize>,
    known: &mut [Option<Vec<bool, B>>],
)
    requires some { places.start < places.end }
    requires few { places.end ≤ places.start + MAX_GROUP }
    requires within { places.end ≤ length jobs.now }
    requires one { AreBeside (map J.job jobs.now) places.start places.end }
    requires count { length known.old ≡ length jobs.now }
    requires known { AreKnown (map J.job jobs.now) known.old }
    ensures count { length known.new ≡ length known.old }
    ensures known { AreKnown (map J.job jobs.now) known.new }
{
    let first = places.start;
    let last = places.end - 1;
    if first == last {
        put(known, first, job_at(jobs, first).evaluate(alloc).ok());
        return;
    }
    let second = first + 1;
    let third = (first + 2).min(last);
    let group = Four {
        a: job_at(jobs, first),
        b: job_at(jobs, second),
        c: job_at(jobs, third),
        d: job_at(jobs, last),
    };
    let Four { a, b, c, d } = evaluate_four(alloc, group);
    put(known, first, a);
    put(known, second, b);
    put(known, third, c);
    put(known, last, d);
}

/// Puts the output bits of a job at its place. The caller ensures that there is such a place.
fn put<B: Allocator>(known: &mut [Option<Vec<bool, B>>], place: usize, bits: Option<Vec<bool, B>>)
    requires { place < length known.old }
    ensures count { length known.new ≡ length known.old }
    ensures known { (jobs : List JobParts) → AreKnown jobs known.old
        → IfSome bits (λ bits. AreBitsOf jobs place bits.items) → AreKnown jobs known.new }
{
    known[place] = bits;
}

/// The output bits of each job, in order: those that are known, and the others evaluated on one thread. It is 48 for
/// the first job whose garbled file doesn't recognise an output label, at the first such output.
pub fn evaluate_rest<A: Allocator, B: Allocator + Copy, C: Allocator, J: AsJob<A, C>>(
    alloc: B,
    jobs: &[J],
    mut known: Vec<Option<Vec<bool, B>>, B>,
) -> Result<Vec<Vec<bool, B>, B>, EvalFault>
    requires { AreKnown (map J.job jobs.now) known.items }
    ensures { EvaluateTo (map J.job jobs.now)
        (result_map_both (λ all. map (λ bits. bits.items) all.items) (λ fault. fault) result) }
{
    let mut all = Vec::with_capacity(alloc, jobs.len())?;
    for i in 0..jobs.len() {
        let found = taken(&mut known, i);
        let bits = bits_of(alloc, &job_at(jobs, i), found)?;
        all.push(bits)?;
    }
    Ok(all)
}

/// The output bits of a job: those that were found, or else evaluated on one thread.
fn bits_of<A: Allocator, B: Allocator + Copy, C: Allocator>(
    alloc: B,
    job: &JobRef<'_, A, C>,
    found: Option<Vec<bool, B>>,
) -> Result<Vec<bool, B>, EvalFault>
    requires { IfSome found (λ bits. IsEvaluated job.now (Ok bits.items)) }
    ensures evaluated { IsEvaluated job.now
        (result_map_both (λ bits. bits.items) (λ fault. fault) result) }
    ensures count { IfOk result (λ bits. length bits.items ≡ output_wires job.now.circuit) }
{
    job.law_whole();
    match found {
        Some(bits) => Ok(bits),
        None => job.evaluate(alloc),
    }
}

/// The output bits at a place, if there are any; none are there afterwards.
fn taken<B: Allocator>(
    known: &mut Vec<Option<Vec<bool, B>>, B>,
    place: usize,
) -> Option<Vec<bool, B>>
    ensures bits { IfSome result (λ bits. (jobs : List JobParts)
        → AreKnown jobs known.old.items → AreBitsOf jobs place bits.items) }
    ensures rest { (jobs : List JobParts)
        → AreKnown jobs known.old.items → AreKnown jobs known.new.items }
{
    if place < known.len() {
        known[place].take()
    } else {
        None
    }
}
