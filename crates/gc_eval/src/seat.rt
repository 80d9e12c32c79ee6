//! Boards and their seats.

ghost use Rattle.std.specs.Prelude.{◌≡◌, ◌<◌, ◌-◌, ◌^◌, [], length, min};
ghost use Rattle.gc_gates.specs.declared.view.Hand.TheVariants.{Empty};

use crate::one_job::OneJob;
use gc_gates::{BoardWords, Place};
use gc_job::{Job, Wiring};
use std::alloc::{Allocator, Global};

/// One evaluator's part of a board. Contracts see what it made and knows, and its steps; between two calls it has no
/// gate in hand.
#[derive(Drop)]
pub struct EvalSeat<A: Allocator = Global, C: Allocator = Global> {
    pub(crate) place: Place<OneJob<A, C>>,
    pub(crate) count: u64,
    ghost at_rest: { (place.me.0.inner.hand ≡ Empty) × (place.me.1 ≡ []) × (place.me.0.seats ≡ 1) },
    ghost counted: { count ≡ min (length place.me.0.inner.made) (2 ^ 64 - 1) },
}

/// An evaluation of a job that many seats work at, each in a thread of its own or not: no call waits, and none but
/// `EvalBoard::open` allocates. The board has three shared words for each gate.
#[derive(Drop)]
pub struct EvalBoard<'j, 'c, B: Allocator = Global, A: Allocator = Global, C: Allocator = Global> {
    pub(crate) job: &'j Job<'c, A, C>,
    pub(crate) wiring: Wiring<'c, B, C>,
    pub(crate) table: BoardWords<OneJob<A, C>, B>,
    pub(crate) seats: u32,
    ghost about: { table.shared.key.about ≡ job.now },
    ghost wired: { wiring ≡ job.now.circuit },
    ghost count: { (seats ≡ table.shared.key.seats) × (0 < seats) },
}
