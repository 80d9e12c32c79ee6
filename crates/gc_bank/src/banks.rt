//! The calls of banks by which a seat enters, steps, reads labels, leaves, seals and reopens. None of them waits or
//! allocates.

ghost use Rattle.std.specs.Prelude.{◌≡◌, ℕ, ◌+◌, ◌*◌, ◌<◌, ◌≤◌, ◌-◌, ◌^◌, length, min, Some, MatchOption, IfSome, IfNone};
ghost use Rattle.gc_rounds.specs.declared.view.Position.TheVariants.{Outside, Inside};
ghost use Rattle.gc_rounds.specs.Calls.{Enters, EntersAlone, Leaves, Seals, Reopens};
ghost use Rattle.gc_job.specs.ActiveLabels.{gates_of};
ghost use Rattle.gc_bank.specs.Views.{Stays, Answers, AnswersTwo, AnswersFour, AnswersAlone, AnswersTwoAlone, Ran, Got, Lacks};
ghost use Rattle.gc_bank.specs.Seats.{IsSeatOf, IsSameSeat, IsInside, InRound, view, seat_round, jobs_on, seats_on};

use crate::seat::{BankSeat, Banks};
use gc_label::Label;
use gc_rounds::{Entry, Reopening};
use gc_steps::{Answer, Four};
use std::alloc::Allocator;

impl<B: Allocator, A: Allocator, C: Allocator> BankSeat<B, A, C> {
    /// The round that the seat is inside, if it is inside one.
    pub fn inside(&self) -> Option<u32>
        ensures { MatchOption result ((view self.now).position ≡ Outside)
            (λ r. (view self.now).position ≡ Inside r) }
    {
        self.inside
    }

    /// How many gates the seat made, in all rounds. It stays at `u64::MAX`, which no banks reach.
    pub fn made(&self) -> u64
        ensures { result ≡ min (length (view self.now).inner.made) (2 ^ 64 - 1) }
    {
        self.count
    }
}

impl<'j, 'c, B: Allocator, A: Allocator, C: Allocator> Banks<'j, 'c, B, A, C> {
    /// Enters a round: inside where its bank is open in it, shut where it is sealed in it, and else the other round
    /// that the bank is in. An only seat finds what its own steps left: bank 0 open in round 0 and bank 1 in round 1,
    /// until it seals or reopens them. The caller ensures that the seat is these banks' and outside, and that there is
    /// such a round.
    pub fn enter(&self, seat: &mut BankSeat<B, A, C>, round: u32) -> Entry
        requires own { IsSeatOf self.now seat.old }
        requires outside { (view seat.old).position ≡ Outside }
        requires round { round < length (jobs_on self.now) }
        ensures own { IsSeatOf self.now seat.new }
        ensures same { IsSameSeat seat.old seat.new }
        ensures found { Enters round (view seat.old) (view seat.new) result }
        ensures alone { seats_on self.now ≡ 1 → EntersAlone round (view seat.old) result }
    {
        let entry = gc_rounds::enter(&self.board.table.shared, &mut seat.place, round);
        seat.inside = match entry {
            Entry::Inside => Some(round),
            _ => None,
        };
        entry
    }

    /// Makes a gate in the seat's round, or says why not, in at most 11 atomic steps. A label that is returned is the
    /// gate's active label in the round's job, and the seat knows the gate in the round from then on. A gate that the
    /// seat knows is returned by Done. The caller ensures that the seat is these banks' and inside a round, and that
    /// there is such a gate.
    pub fn step(&self, seat: &mut BankSeat<B, A, C>, gate: u32) -> Answer
        requires own { IsSeatOf self.now seat.old }
        requires inside { IsInside (view seat.old) }
        requires gate { InRound (jobs_on self.now) (view seat.old) (λ job. gate < gates_of job) }
        ensures own { IsSeatOf self.now seat.new }
        ensures same { IsSameSeat seat.old seat.new }
        ensures stays { Stays (view seat.old) (view seat.new) }
        ensures answer { InRound (jobs_on self.now) (view seat.old)
            (λ job. Answers job (seat_round (view seat.old)) gate 11 (view seat.old)
            (view seat.new) result) }
        ensures alone { seats_on self.now ≡ 1 → InRound (jobs_on self.now) (view seat.old)
            (λ job. AnswersAlone job (seat_round (view seat.old)) gate (view seat.old) result) }
    {
        let Some(round) = seat.inside else {
            unreachable!()
        };
        let answer = self.at(round).step(&mut seat.place, gate);
        seat.count = seat.count.saturating_add(answer.made());
        answer
    }

    /// Steps two gates in the seat's round at once, in at most 22 atomic steps: for each it returns as `step` does, and
    /// the gates that it makes are made in this order. A gate that isn't ready before the call isn't made ready by the
    /// other. Two AND gates that are ready take about as long as one. The caller ensures that the seat is these banks'
    /// and inside a round, and that there are such gates.
    pub fn step_two(
        &self,
        seat: &mut BankSeat<B, A, C>,
        first: u32,
        second: u32,
    ) -> (Answer, Answer)
        requires own { IsSeatOf self.now seat.old }
        requires inside { IsInside (view seat.old) }
        requires first { InRound (jobs_on self.now) (view seat.old) (λ job. first < gates_of job) }
        requires second { InRound (jobs_on self.now) (view seat.old)
            (λ job. second < gates_of job) }
        ensures own { IsSeatOf self.now seat.new }
        ensures same { IsSameSeat seat.old seat.new }
        ensures stays { Stays (view seat.old) (view seat.new) }
        ensures answers { InRound (jobs_on self.now) (view seat.old)
            (λ job. AnswersTwo job (seat_round (view seat.old)) first second 22 (view seat.old)
            (view seat.new) result) }
        ensures alone { seats_on self.now ≡ 1 → InRound (jobs_on self.now) (view seat.old)
            (λ job. AnswersTwoAlone job (seat_round (view seat.old)) first second
            (view seat.old) result) }
    {
        let Some(round) = seat.inside else {
            unreachable!()
        };
        let answers = self.at(round).step_two(&mut seat.place, first, second);
        let made = answers.0.made() + answers.1.made();
        seat.count = seat.count.saturating_add(made);
        answers
    }

    /// Steps four gates in the seat's round, as [`Banks::step`] steps one, in at most 72 atomic steps. Where each is
    /// found ready, the labels of four AND gates are computed at once; else it steps two gates and two gates. The
    /// caller ensures that the seat is these banks' and inside a round, and that there are such gates.
    pub(crate) fn step_four(
        &self,
        seat: &mut BankSeat<B, A, C>,
        gates: Four<u32>,
    ) -> (Answer, Answer, Answer, Answer)
        requires own { IsSeatOf self.now seat.old }
        requires inside { IsInside (view seat.old) }
        requires first { InRound (jobs_on self.now) (view seat.old)
            (λ job. (gates.a < gates_of job) × (gates.b < gates_of job)) }
        requires last { InRound (jobs_on self.now) (view seat.old)
            (λ job. (gates.c < gates_of job) × (gates.d < gates_of job)) }
        ensures own { IsSeatOf self.now seat.new }
        ensures same { IsSameSeat seat.old seat.new }
        ensures stays { Stays (view seat.old) (view seat.new) }
        ensures answers { InRound (jobs_on self.now) (view seat.old)
            (λ job. AnswersFour job (seat_round (view seat.old)) gates.a gates.b gates.c gates.d 72
            (view seat.old) (view seat.new) result) }
    {
        let Some(round) = seat.inside else {
            unreachable!()
        };
        let answers = self.at(round).step_four(&mut seat.place, gates);
        let made = answers.0.made() + answers.1.made() + answers.2.made() + answers.3.made();
        seat.count = seat.count.saturating_add(made);
        answers
    }

    /// The active label of a wire in the seat's round, if it is an input wire or the gate that sets it is done in the
    /// round; the seat knows that gate from then on, and a gate that it knew gives its label. The caller ensures that
    /// the seat is these banks' and inside a round, and that there is such a wire.
    pub fn label(&self, seat: &mut BankSeat<B, A, C>, wire: u32) -> Option<Label>
        requires own { IsSeatOf self.now seat.old }
        requires inside { IsInside (view seat.old) }
        requires wire { InRound (jobs_on self.now) (view seat.old)
            (λ job. wire < job.circuit.wires) }
        ensures own { IsSeatOf self.now seat.new }
        ensures same { IsSameSeat seat.old seat.new }
        ensures ran { Ran (view seat.old) (view seat.new) (view seat.old).inner.made 3 }
        ensures some { IfSome result (λ label. InRound (jobs_on self.now) (view seat.old)
            (λ job. Got job (seat_round (view seat.old)) wire (view seat.new) label)) }
        ensures none { IfNone result (InRound (jobs_on self.now) (view seat.old)
            (λ job. Lacks job (seat_round (view seat.old)) wire (view seat.old) (view seat.new))) }
    {
        let Some(round) = seat.inside else {
            unreachable!()
        };
        self.at(round).label(&mut seat.place, wire)
    }

    /// Leaves the seat's round. The caller ensures that the seat is these banks' and inside a round.
    pub fn leave(&self, seat: &mut BankSeat<B, A, C>)
        requires own { IsSeatOf self.now seat.old }
        requires inside { IsInside (view seat.old) }
        ensures own { IsSeatOf self.now seat.new }
        ensures same { IsSameSeat seat.old seat.new }
        ensures left { Leaves (seat_round (view seat.old)) (view seat.old) (view seat.new) }
    {
        let Some(round) = seat.inside else {
            unreachable!()
        };
        gc_rounds::leave(&self.board.table.shared, &mut seat.place, round);
        seat.inside = None;
    }

    /// Seals the seat's round: no further seat can enter it, and those inside go on until they leave. The caller
    /// ensures that the seat is these banks' and inside a round.
    pub fn seal(&self, seat: &mut BankSeat<B, A, C>)
        requires own { IsSeatOf self.now seat.old }
        requires inside { IsInside (view seat.old) }
        ensures own { IsSeatOf self.now seat.new }
        ensures same { IsSameSeat seat.old seat.new }
        ensures sealed { Seals (seat_round (view seat.old)) (view seat.old) (view seat.new) }
    {
        let Some(round) = seat.inside else {
            unreachable!()
        };
        gc_rounds::seal(&self.board.table.shared, &mut seat.place, round);
    }

    /// Gives the bank of a round to the next round but one, where it is sealed in the round and nobody is inside; else
    /// it returns what it found. The caller ensures that the seat is these banks' and outside, and that there is a next
    /// round but one.
    pub fn reopen(&self, seat: &mut BankSeat<B, A, C>, round: u32) -> Reopening
        requires own { IsSeatOf self.now seat.old }
        requires outside { (view seat.old).position ≡ Outside }
        requires round { round + 2 < length (jobs_on self.now) }
        ensures own { IsSeatOf self.now seat.new }
        ensures same { IsSameSeat seat.old seat.new }
        ensures found { Reopens round (view seat.old) (view seat.new) result }
    {
        gc_rounds::reopen(&self.board.table.shared, &mut seat.place, round)
    }
}
