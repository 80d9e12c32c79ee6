//! Workers that evaluate jobs of their own.

ghost use Rattle.std.specs.Prelude.{◌≡◌, ◌+◌, ◌/◌, ◌<◌, ◌≤◌, length};
ghost use Rattle.gc_job.specs.Jobs.{AreKnown};
ghost use Rattle.gc_bank.specs.Jobs.{AreOnOneCircuit};
ghost use Rattle.gc_bank.specs.Workers.{AreKnownFrom};

use gc_job::{Job, MAX_GROUP, evaluate_group, none_known};
use gc_rounds::MAX_JOBS;
use gc_workers::{Crew, Gatehouse};
use std::alloc::Allocator;
use std::thread;
use std::thread::Threads;

/// For each job, in order, its output bits, where there are any. Each worker evaluates an equal share of the list, up
/// to four jobs side by side, and reports each gate of these jobs to the observer before. The list is empty where
/// memory runs out.
pub(crate) fn evaluate_apart<
    A: Allocator + Send + Sync,
    B: Allocator + Copy + Send + Sync,
    C: Allocator + Send + Sync,
    H: Gatehouse + Sync,
    R: Threads + Sync,
>(crew: &Crew<'_, B, H, R>, jobs: &[Job<'_, A, C>]) -> Vec<Option<Vec<bool, B>>, B>
    requires count { length jobs.now ≤ MAX_JOBS }
    requires workers { 0 < crew.now.workers }
    requires one { AreOnOneCircuit jobs.now }
    ensures { AreKnown jobs.now result.items }
{
    let Ok(mut known) = none_known(crew.alloc, jobs.len()) else {
        return Vec::new(crew.alloc);
    };
    let size = jobs.len().div_ceil(crew.workers as usize).max(1);
    evaluate_shares(crew, jobs, known.as_mut_slice(), size);
    known
}

/// Evaluates the jobs, one for each place of the list, where each worker has a share of this size.
fn evaluate_shares<
    A: Allocator + Send + Sync,
    B: Allocator + Copy + Send + Sync,
    C: Allocator + Send + Sync,
    H: Gatehouse + Sync,
    R: Threads + Sync,
>(crew: &Crew<'_, B, H, R>, jobs: &[Job<'_, A, C>], known: &mut [Option<Vec<bool, B>>], size: usize)
    requires size { 0 < size }
    requires few { length jobs.now ≤ MAX_JOBS }
    requires room { length known.old ≤ length jobs.now }
    requires one { AreOnOneCircuit jobs.now }
    requires known { AreKnown jobs.now known.old }
    ensures { AreKnown jobs.now known.new }
{
    thread::for_each_chunk_mut(
        crew.rt,
        known,
        size,
        &|start: usize, share: &mut [Option<Vec<bool, B>>]|
            requires size { 0 < size }
            requires few { length jobs.now ≤ MAX_JOBS }
            requires room { start + length share.now ≤ length jobs.now }
            requires one { AreOnOneCircuit jobs.now }
            requires known { AreKnownFrom jobs.now start share.now }
            ensures count { length share.exit.now ≡ length share.entry.now }
            ensures known { AreKnownFrom jobs.entry.now start share.exit.now }
        {
            let worker = worker_of(start, size);
            report(&jobs[start..start + share.len()], worker, crew.observer);
            evaluate_share(crew.alloc, jobs, start, share);
        },
    );
}

/// The worker whose share begins at this place, where each share has this size.
fn worker_of(start: usize, size: usize) -> u32
    requires size { 0 < size }
    requires start { start ≤ MAX_JOBS }
    ensures { result ≡ start / size }
{
    (start / size) as u32
}

/// Reports each gate of these jobs to the observer, job by job.
fn report<A: Allocator, C: Allocator, H: Gatehouse>(
    jobs: &[Job<'_, A, C>],
    worker: u32,
    observer: &H,
) {
    for job in jobs {
        for gate in 0..job.circuit().gates() {
            observer.before(worker, gate);
        }
    }
}

/// Evaluates the jobs from `start` on, one for each place of the share. The caller ensures that there are these jobs.
fn evaluate_share<A: Allocator, B: Allocator + Copy, C: Allocator>(
    alloc: B,
    jobs: &[Job<'_, A, C>],
    start: usize,
    share: &mut [Option<Vec<bool, B>>],
)
    requires room { start + length share.old ≤ length jobs.now }
    requires one { AreOnOneCircuit jobs.now }
    requires known { AreKnownFrom jobs.now start share.old }
    ensures count { length share.new ≡ length share.old }
    ensures known { AreKnownFrom jobs.now start share.new }
{
    let part = &jobs[start..start + share.len()];
    for group in 0..part.len().div_ceil(MAX_GROUP) {
        let first = MAX_GROUP * group;
        let end = (first + MAX_GROUP).min(part.len());
        evaluate_group(alloc, part, first..end, share);
    }
}
