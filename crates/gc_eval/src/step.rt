//! What a seat does on a board: it steps a gate, asks for a label, and shares what it knows with another seat.

ghost use Rattle.std.specs.Prelude.{◌≡◌, ℕ, ◌+◌, ◌-◌, ◌^◌, ◌<◌, length, min, IfSome, IfNone};
ghost use Rattle.gc_gates.specs.Pairs.{pairs};
ghost use Rattle.gc_job.specs.ActiveLabels.{gates_of};
ghost use Rattle.gc_eval.specs.Views.{Ran, Got, Lacks, Answers, AnswersTwo, AnswersFour, AnswersAlone, AnswersTwoAlone};
ghost use Rattle.gc_eval.specs.Seats.{IsSeatOf, IsSameSeat, view, job_on, seats_on};

use crate::one_job::OneJob;
use crate::seat::{EvalBoard, EvalSeat};
use gc_gates::{OneRound, copy_known};
use gc_label::Label;
use gc_steps::{Answer, Four, Round};
use std::alloc::Allocator;

impl<A: Allocator, C: Allocator> EvalSeat<A, C> {
    /// How many gates the seat made. It stays at `u64::MAX`, which no board reaches.
    pub fn made(&self) -> u64
        ensures { result ≡ min (length (view self.now).inner.made) (2 ^ 64 - 1) }
    {
        self.count
    }
}

impl<'j, 'c, B: Allocator, A: Allocator, C: Allocator> EvalBoard<'j, 'c, B, A, C> {
    /// The one round of a board.
    #[inline]
    fn round(&self) -> Round<'_, 'c, OneJob<A, C>, OneRound, B, A, C>
        ensures number { result.number ≡ 0 }
        ensures job { result.job.now ≡ job_on self.now }
        ensures table { result.words.now.table_id ≡ self.now.table.shared.table_id }
        ensures key { result.words.now.key ≡ self.now.table.shared.key }
    {
        Round {
            words: &self.table.shared,
            wiring: &self.wiring,
            job: self.job,
            number: 0,
        }
    }

    /// Makes a gate, or says why not, in at most 11 atomic steps. A label that is returned is the gate's active label,
    /// and the seat knows the gate from then on. A gate that the seat knows is returned by Done. The call never blocks
    /// and doesn't allocate. The caller ensures that the seat is this board's, and that there is such a gate.
    pub fn step(&self, seat: &mut EvalSeat<A, C>, gate: u32) -> Answer
        requires own { IsSeatOf self.now seat.old }
        requires gate { gate < gates_of (job_on self.now) }
        ensures own { IsSeatOf self.now seat.new }
        ensures same { IsSameSeat seat.old seat.new }
        ensures answer { Answers (job_on self.now) gate 11 (view seat.old) (view seat.new) result }
        ensures alone { seats_on self.now ≡ 1
            → AnswersAlone (job_on self.now) gate (view seat.old) result }
    {
        let answer = self.round().step(&mut seat.place, gate);
        seat.count = seat.count.saturating_add(answer.made());
        answer
    }

    /// Steps two gates, as [`EvalBoard::step`] steps one, in at most 22 atomic steps. The labels of two AND gates are
    /// computed at once, before the second is claimed: that of the second for nothing where another seat claims it
    /// meanwhile. The caller ensures that the seat is this board's, and that there are such gates.
    pub fn step_two(&self, seat: &mut EvalSeat<A, C>, first: u32, second: u32) -> (Answer, Answer)
        requires own { IsSeatOf self.now seat.old }
        requires gates { (first < gates_of (job_on self.now))
            × (second < gates_of (job_on self.now)) }
        ensures own { IsSeatOf self.now seat.new }
        ensures same { IsSameSeat seat.old seat.new }
        ensures answer { AnswersTwo (job_on self.now) first second 22
            (view seat.old) (view seat.new) result }
        ensures alone { seats_on self.now ≡ 1
            → AnswersTwoAlone (job_on self.now) first second (view seat.old) result }
    {
        let answers = self.round().step_two(&mut seat.place, first, second);
        let made = answers.0.made() + answers.1.made();
        seat.count = seat.count.saturating_add(made);
        answers
    }

    /// Steps four gates, as [`EvalBoard::step`] steps one, in at most 72 atomic steps. Where each is found ready, the
    /// labels of four AND gates are computed at once, when the first is claimed and before the others are; else it
    /// steps two gates and two gates. The caller ensures that the seat is this board's, and that there are such gates.
    pub(crate) fn step_four(
        &self,
        seat: &mut EvalSeat<A, C>,
        gates: Four<u32>,
    ) -> (Answer, Answer, Answer, Answer)
        requires own { IsSeatOf self.now seat.old }
        requires first { (gates.a < gates_of (job_on self.now))
            × (gates.b < gates_of (job_on self.now)) }
        requires last { (gates.c < gates_of (job_on self.now))
            × (gates.d < gates_of (job_on self.now)) }
        ensures own { IsSeatOf self.now seat.new }
        ensures same { IsSameSeat seat.old seat.new }
        ensures answer { AnswersFour (job_on self.now) gates.a gates.b gates.c gates.d 72
            (view seat.old) (view seat.new) result }
    {
        let answers = self.round().step_four(&mut seat.place, gates);
        let made = answers.0.made() + answers.1.made() + answers.2.made() + answers.3.made();
        seat.count = seat.count.saturating_add(made);
        answers
    }

    /// The active label of a wire, if it is an input wire or the gate that sets it is done; the seat knows that gate
    /// from then on, and a gate that it knew gives its label. The call never blocks and doesn't allocate. The caller
    /// ensures that the seat is this board's, and that there is such a wire.
    pub fn label(&self, seat: &mut EvalSeat<A, C>, wire: u32) -> Option<Label>
        requires own { IsSeatOf self.now seat.old }
        requires wire { wire < (job_on self.now).circuit.wires }
        ensures own { IsSeatOf self.now seat.new }
        ensures same { IsSameSeat seat.old seat.new }
        ensures ran { Ran (view seat.old) (view seat.new) (view seat.old).inner.made 3 }
        ensures some { IfSome result (Got (job_on self.now) wire (view seat.new)) }
        ensures none { IfNone result (Lacks (job_on self.now) wire
            (view seat.old) (view seat.new)) }
    {
        self.round().label(&mut seat.place, wire)
    }

    /// `to` learns what `from` knows. The call never blocks and doesn't allocate. The caller ensures that both seats
    /// are this board's.
    pub fn tell(&self, from: &mut EvalSeat<A, C>, to: &mut EvalSeat<A, C>)
        requires from { IsSeatOf self.now from.old }
        requires to { IsSeatOf self.now to.old }
        ensures own { IsSeatOf self.now from.new × IsSeatOf self.now to.new }
        ensures from { IsSameSeat from.old from.new × (view from.new ≡ view from.old) }
        ensures same { IsSameSeat to.old to.new }
        ensures made { (view to.new).inner.made ≡ (view to.old).inner.made }
        ensures steps { (view to.new).steps ≡ (view to.old).steps }
        ensures known { (r g : ℕ) → pairs r g (view to.new).inner.known
            ≡ pairs r g (view to.old).inner.known + pairs r g (view from.old).inner.known }
    {
        copy_known(&self.table.shared, &mut from.place, &mut to.place);
    }
}
