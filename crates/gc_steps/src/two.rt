//! A step of two gates, whose labels are computed at once.

ghost use Rattle.std.specs.Prelude.{◌≡◌, ◌≢◌, IfSome};
ghost use Rattle.gc_rounds.specs.Places.{IsSamePlace};
ghost use Rattle.gc_gates.specs.Pairs.{pairs};
ghost use Rattle.gc_gates.specs.Places.{IsPlaceAt};
ghost use Rattle.gc_job.specs.ActiveLabels.{active, set_of};
ghost use Rattle.gc_steps.specs.Views.{IsMadeNow, IsIdle, Answers, AnswersTwo, IsPrepared, IsAlone, AnswersTwoAlone};

use crate::answer::Answer;
use crate::jobs::Jobs;
use crate::round::{Prepared, Round};
use gc_gates::{Frame, Place};
use gc_label::Label;
use std::alloc::Allocator;

impl<'w, 'c, J: Jobs, R: Frame<J>, B: Allocator, A: Allocator, C: Allocator> Round<
    'w,
    'c,
    J,
    R,
    B,
    A,
    C,
> {
    /// Makes the first gate, where no seat has it by now, and computes the label of the second with its own.
    fn make_with_one(
        &self,
        place: &mut Place<J>,
        first: Prepared,
        second: Prepared,
    ) -> (Answer, Option<Label>)
        requires first { IsPlaceAt R.layout J.gates self.now.words.now.table_id
            self.now.words.now.key place.old self.now.number first.gate }
        requires second { IsPlaceAt R.layout J.gates self.now.words.now.table_id
            self.now.words.now.key place.old self.now.number second.gate }
        requires empty { IsIdle place.old.me.0 }
        requires ready { IsPrepared self.now.job.now self.now.number place.old.me.0 first
            × IsPrepared self.now.job.now self.now.number place.old.me.0 second }
        ensures same { IsSamePlace place.old place.new }
        ensures answer { Answers R.layout self.now.job.now self.now.number first.gate 4
            place.old.me.0 place.new.me.0 result.0 }
        ensures second { IfSome result.1 (λ label. label
            ≡ active self.now.job.now (set_of self.now.job.now second.gate)) }
        ensures alone { IsAlone place.old.me.0
            → pairs self.now.number first.gate place.old.me.0.inner.made ≡ 0 → IsMadeNow result.0 }
    {
        if let Some(answer) = self.take(place, first.gate, first.free) {
            return (answer, None);
        }
        let (one, other) = (first.read_gate(), second.read_gate());
        let (label, other) = self.job.active_two(self.wiring, &one, &other);
        self.put(place, first.gate, label);
        (Answer::Made(label), Some(other))
    }

    /// Makes two gates that are prepared, each where no seat has it by now.
    fn make_two(&self, place: &mut Place<J>, first: Prepared, second: Prepared) -> (Answer, Answer)
        requires first { IsPlaceAt R.layout J.gates self.now.words.now.table_id
            self.now.words.now.key place.old self.now.number first.gate }
        requires second { IsPlaceAt R.layout J.gates self.now.words.now.table_id
            self.now.words.now.key place.old self.now.number second.gate }
        requires empty { IsIdle place.old.me.0 }
        requires ready { IsPrepared self.now.job.now self.now.number place.old.me.0 first
            × IsPrepared self.now.job.now self.now.number place.old.me.0 second }
        ensures same { IsSamePlace place.old place.new }
        ensures answers { AnswersTwo R.layout self.now.job.now self.now.number first.gate
            second.gate 8 place.old.me.0 place.new.me.0 result }
        ensures alone { IsAlone place.old.me.0
            → (pairs self.now.number first.gate place.old.me.0.inner.made ≡ 0 → IsMadeNow result.0)
            × (second.gate ≢ first.gate
            → pairs self.now.number second.gate place.old.me.0.inner.made ≡ 0
            → IsMadeNow result.1) }
    {
        let other = second;
        let (answer, label) = self.make_with_one(place, first, second);
        match label {
            Some(label) => (answer, self.publish(place, &other, label)),
            None => (answer, self.make(place, other)),
        }
    }

    /// Steps two gates, as [`Round::step`] steps one, in at most 22 atomic steps. Where both are found ready, the
    /// labels of two AND gates are computed at once, when the first is claimed and before the second is. The caller
    /// ensures that the place is inside the round with an empty hand, and that there are such gates.
    pub fn step_two(&self, place: &mut Place<J>, first: u32, second: u32) -> (Answer, Answer)
        requires first { IsPlaceAt R.layout J.gates self.now.words.now.table_id
            self.now.words.now.key place.old self.now.number first }
        requires second { IsPlaceAt R.layout J.gates self.now.words.now.table_id
            self.now.words.now.key place.old self.now.number second }
        requires empty { IsIdle place.old.me.0 }
        ensures same { IsSamePlace place.old place.new }
        ensures answers { AnswersTwo R.layout self.now.job.now self.now.number first second 22
            place.old.me.0 place.new.me.0 result }
        ensures alone { IsAlone place.old.me.0
            → AnswersTwoAlone self.now.job.now self.now.number first second place.old.me.0 result }
    {
        let one = self.prepare(place, first);
        let other = self.prepare(place, second);
        match (one, other) {
            (Ok(one), Ok(other)) => self.make_two(place, one, other),
            (Ok(one), Err(answer)) => (self.make(place, one), answer),
            (Err(answer), Ok(other)) => (answer, self.make(place, other)),
            (Err(one), Err(other)) => (one, other),
        }
    }
}
