//! Banks and their seats.

ghost use Rattle.std.specs.Prelude.{◌≡◌, ℕ, ◌<◌, ◌≤◌, ◌-◌, ◌^◌, [], length, min, slice_get, Some, None};
ghost use Rattle.gc_rounds.specs.declared.words.TheConstants.{MAX_JOBS};
ghost use Rattle.gc_rounds.specs.declared.view.Position.TheVariants.{Outside, Inside};
ghost use Rattle.gc_gates.specs.declared.view.Hand.TheVariants.{Empty};
ghost use Rattle.gc_job.specs.Job.{JobParts};

use crate::series::Series;
use gc_gates::{BankTable, Place};
use gc_job::{Job, Wiring};
use std::alloc::{Allocator, Global};

/// One evaluator's part of the banks. Contracts see where it is, what it made and knows, and its steps; between two
/// calls it has no gate in hand and is never counted in at a bank whose round it isn't inside.
#[derive(Drop)]
pub struct BankSeat<B: Allocator = Global, A: Allocator = Global, C: Allocator = Global> {
    pub(crate) place: Place<Series<B, A, C>>,
    pub(crate) inside: Option<u32>,
    pub(crate) count: u64,
    ghost at_rest: { (place.me.0.inner.hand ≡ Empty) × (place.me.1 ≡ []) × (place.me.0.seats ≡ 1) },
    ghost outside: { inside ≡ None → place.me.0.position ≡ Outside },
    ghost within: { (r : ℕ) → inside ≡ Some r → (place.me.0.position ≡ Inside r)
        × (r < place.me.0.jobs) },
    ghost counted: { count ≡ min (length place.me.0.inner.made) (2 ^ 64 - 1) },
}

/// Evaluations of the jobs of a list, on one circuit, with two sets of board words: round r evaluates the job at place
/// r, and bank b serves the rounds r with `r mod 2 = b`, in order. A bank goes to its next round when its round is
/// sealed and no seat is inside. No call waits, and none but `Banks::open` allocates.
#[derive(Drop)]
pub struct Banks<'j, 'c, B: Allocator = Global, A: Allocator = Global, C: Allocator = Global> {
    pub(crate) jobs: &'j [Job<'c, A, C>],
    pub(crate) wiring: Wiring<'c, B, C>,
    pub(crate) board: BankTable<Series<B, A, C>, B>,
    pub(crate) seats: u32,
    ghost about: { board.table.shared.key.about ≡ jobs.now },
    ghost circuit: { (r : ℕ) (job : JobParts) → slice_get jobs.now r ≡ Some job
        → job.circuit ≡ wiring },
    ghost count: { (seats ≡ board.table.shared.key.seats) × (0 < seats) },
    ghost few: { (board.table.shared.key.jobs ≡ length jobs.now)
        × (0 < length jobs.now) × (length jobs.now ≤ MAX_JOBS) },
}
