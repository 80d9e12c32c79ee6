//! The rounds of banks, as a seat steps in them.

ghost use Rattle.std.specs.Prelude.{◌≡◌, ◌<◌, length, slice_get, MatchOption, Some};
ghost use Rattle.gc_bank.specs.Rounds.{IsRound};
ghost use Rattle.gc_bank.specs.Seats.{jobs_on};

use crate::seat::Banks;
use crate::series::Series;
use gc_job::Job;
use gc_rounds::Rule;
use gc_steps::Round;
use std::alloc::Allocator;

impl<'j, 'c, B: Allocator, A: Allocator, C: Allocator> Banks<'j, 'c, B, A, C> {
    /// The job of a round.
    #[inline]
    pub(crate) fn job(&self, round: u32) -> &'j Job<'c, A, C>
        requires { round < length (jobs_on self.now) }
        ensures at { slice_get (jobs_on self.now) round ≡ Some result.now }
        ensures round { IsRound self.now.board.table.shared.key.about round result.now }
        ensures circuit { result.now.circuit ≡ self.now.wiring }
    {
        &self.jobs[round as usize]
    }

    /// A round at the words of its bank.
    #[inline]
    pub(crate) fn at(&self, round: u32) -> Round<'_, 'c, Series<B, A, C>, Rule, B, A, C>
        requires { round < length (jobs_on self.now) }
        ensures number { result.number ≡ round }
        ensures job { slice_get (jobs_on self.now) round ≡ Some result.job.now }
        ensures table { result.words.now.table_id ≡ self.now.board.table.shared.table_id }
        ensures key { result.words.now.key ≡ self.now.board.table.shared.key }
    {
        Round {
            words: &self.board.table.shared,
            wiring: &self.wiring,
            job: self.job(round),
            number: round,
        }
    }

    /// The law of rounds: each has a job, on the circuit of all. A call of it does nothing.
    #[inline(always)]
    pub(crate) fn law_round(&self, round: u32)
        requires { round < length (jobs_on self.now) }
        ensures { MatchOption (slice_get (jobs_on self.now) round) ⊥
            (IsRound (jobs_on self.now) round) }
    {}
}
