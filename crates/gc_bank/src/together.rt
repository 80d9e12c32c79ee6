//! Workers that evaluate a list of jobs together.

ghost use Rattle.std.specs.Prelude.{◌<◌, ◌≤◌, length, List};
ghost use Rattle.gc_workers.specs.Workers.{AreFew};
ghost use Rattle.gc_job.specs.Job.{JobParts};
ghost use Rattle.gc_bank.specs.Jobs.{AreOnOneCircuit};
ghost use Rattle.gc_bank.specs.Seats.{jobs_on};
ghost use Rattle.gc_job.specs.Jobs.{AreBitsOf, AreKnown};
ghost use Rattle.gc_bank.specs.Workers.{IsWorkerOf, AreWorkersOf};

use crate::seat::Banks;
use crate::worker::{RoundOutputs, Worker, workers_of};
use gc_job::{Job, none_known};
use gc_rounds::MAX_JOBS;
use gc_workers::{Crew, Gatehouse};
use std::alloc::Allocator;
use std::thread;
use std::thread::Threads;

/// For each job, in order, its output bits where a worker kept them. None has any where there is no memory for the
/// banks and their workers, and the result is empty where there is none for it.
pub(crate) fn evaluate_together<
    A: Allocator + Send + Sync,
    B: Allocator + Copy + Send + Sync,
    C: Allocator + Send + Sync,
    H: Gatehouse + Sync,
    R: Threads + Sync,
>(crew: &Crew<'_, B, H, R>, jobs: &[Job<'_, A, C>]) -> Vec<Option<Vec<bool, B>>, B>
    requires count { (0 < length jobs.now) × (length jobs.now ≤ MAX_JOBS) }
    requires one { AreOnOneCircuit jobs.now }
    requires workers { AreFew crew.now.workers }
    ensures { AreKnown jobs.now result.items }
{
    let alloc = crew.alloc;
    let Ok(slots) = none_known(alloc, jobs.len()) else {
        return Vec::new(alloc);
    };
    let Ok((banks, seats)) = Banks::open(alloc, jobs, crew.workers) else {
        return slots;
    };
    let Ok(mut workers) = workers_of(alloc, &banks, seats) else {
        return slots;
    };
    work_together(crew, &banks, workers.as_mut_slice());
    all_kept(&banks, slots, workers)
}

/// Lets the workers go through all rounds, the last one on the calling thread and each other in a thread of its own,
/// where one can be started.
fn work_together<
    A: Allocator + Send + Sync,
    B: Allocator + Copy + Send + Sync,
    C: Allocator + Send + Sync,
    H: Gatehouse + Sync,
    R: Threads + Sync,
>(crew: &Crew<'_, B, H, R>, banks: &Banks<'_, '_, B, A, C>, workers: &mut [Worker<B, A, C>])
    requires { AreWorkersOf banks.now workers.old }
    ensures { AreWorkersOf banks.now workers.new }
{
    let count = workers.len().max(1);
    thread::for_each_mut(
        crew.rt,
        workers,
        count,
        &|_i: usize, worker: &mut Worker<B, A, C>|
            requires { IsWorkerOf banks.now worker.now }
            ensures { IsWorkerOf banks.entry.now worker.exit.now }
        { worker.work(banks, crew.observer) },
    );
}

/// What all workers kept, at the places of the jobs.
fn all_kept<B: Allocator, A: Allocator, C: Allocator>(
    banks: &Banks<'_, '_, B, A, C>,
    mut slots: Vec<Option<Vec<bool, B>>, B>,
    mut workers: Vec<Worker<B, A, C>, B>,
) -> Vec<Option<Vec<bool, B>>, B>
    requires workers { AreWorkersOf banks.now workers.items }
    requires slots { AreKnown (jobs_on banks.now) slots.items }
    ensures { AreKnown (jobs_on banks.now) result.items }
{
    while let Some(worker) = workers.pop() {
        slots = kept_by(banks, slots, worker);
    }
    slots
}

/// What a worker kept, at the places of the jobs.
fn kept_by<B: Allocator, A: Allocator, C: Allocator>(
    banks: &Banks<'_, '_, B, A, C>,
    mut slots: Vec<Option<Vec<bool, B>>, B>,
    worker: Worker<B, A, C>,
) -> Vec<Option<Vec<bool, B>>, B>
    requires worker { IsWorkerOf banks.now worker }
    requires slots { AreKnown (jobs_on banks.now) slots.items }
    ensures { AreKnown (jobs_on banks.now) result.items }
{
    let mut kept = worker.kept;
    while let Some(RoundOutputs { round, bits }) = kept.pop() {
        slots = with_bits(slots, round as usize, bits);
    }
    slots
}

/// The list with these bits at a place, where it has such a place.
fn with_bits<B: Allocator>(
    mut slots: Vec<Option<Vec<bool, B>>, B>,
    place: usize,
    bits: Vec<bool, B>,
) -> Vec<Option<Vec<bool, B>>, B>
    ensures { (jobs : List JobParts) → AreKnown jobs slots.items → AreBitsOf jobs place bits.items
        → AreKnown jobs result.items }
{
    if place < slots.len() {
        let _ = slots[place].replace(bits);
    }
    slots
}
