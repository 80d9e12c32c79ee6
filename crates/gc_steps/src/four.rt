//! A step of four gates, whose labels are computed at once.

ghost use Rattle.std.specs.Prelude.{◌≡◌, ◌<◌, IfSome};
ghost use Rattle.gc_rounds.specs.Places.{IsSamePlace};
ghost use Rattle.gc_gates.specs.Places.{IsPlaceAt};
ghost use Rattle.gc_job.specs.ActiveLabels.{gates_of, active, set_of};
ghost use Rattle.gc_steps.specs.Views.{AreReadBy, IsIdle, Answers, AnswersFour, IsPrepared};

use crate::answer::Answer;
use crate::jobs::Jobs;
use crate::round::{Prepared, Round};
use gc_gates::{Frame, Place};
use gc_half::Four;
use gc_label::Label;
use std::alloc::Allocator;

impl<'w, 'c, J: Jobs, R: Frame<J>, B: Allocator, A: Allocator, C: Allocator> Round<
    'w,
    'c,
    J,
    R,
    B,
    A,
    C,
> {
    /// The labels of four gates that are prepared.
    #[inline]
    fn labels_of_four(&self, ready: &Four<Prepared>) -> Four<Label>
        requires first { (ready.now.a.gate < gates_of self.now.job.now)
            × (ready.now.b.gate < gates_of self.now.job.now) }
        requires last { (ready.now.c.gate < gates_of self.now.job.now)
            × (ready.now.d.gate < gates_of self.now.job.now) }
        requires a { AreReadBy self.now.job.now ready.now.a.gate ready.now.a.labels }
        requires b { AreReadBy self.now.job.now ready.now.b.gate ready.now.b.labels }
        requires c { AreReadBy self.now.job.now ready.now.c.gate ready.now.c.labels }
        requires d { AreReadBy self.now.job.now ready.now.d.gate ready.now.d.labels }
        ensures a { result.a ≡ active self.now.job.now (set_of self.now.job.now ready.now.a.gate) }
        ensures b { result.b ≡ active self.now.job.now (set_of self.now.job.now ready.now.b.gate) }
        ensures c { result.c ≡ active self.now.job.now (set_of self.now.job.now ready.now.c.gate) }
        ensures d { result.d ≡ active self.now.job.now (set_of self.now.job.now ready.now.d.gate) }
    {
        let read = [
            ready.a.read_gate(),
            ready.b.read_gate(),
            ready.c.read_gate(),
            ready.d.read_gate(),
        ];
        let [a, b, c, d] = self.job.active_four(self.wiring, read);
        Four { a, b, c, d }
    }

    /// Makes the first gate, where no seat has it by now, and computes the labels of the other three with its own.
    fn make_with_three(
        &self,
        place: &mut Place<J>,
        ready: &Four<Prepared>,
    ) -> (Answer, Option<Four<Label>>)
        requires place { IsPlaceAt R.layout J.gates self.now.words.now.table_id
            self.now.words.now.key place.old self.now.number ready.now.a.gate }
        requires empty { IsIdle place.old.me.0 }
        requires exist { (ready.now.b.gate < J.gates self.now.words.now.key.about)
            × (ready.now.c.gate < J.gates self.now.words.now.key.about)
            × (ready.now.d.gate < J.gates self.now.words.now.key.about) }
        requires a { IsPrepared self.now.job.now self.now.number place.old.me.0 ready.now.a }
        requires b { IsPrepared self.now.job.now self.now.number place.old.me.0 ready.now.b }
        requires c { IsPrepared self.now.job.now self.now.number place.old.me.0 ready.now.c }
        requires d { IsPrepared self.now.job.now self.now.number place.old.me.0 ready.now.d }
        ensures same { IsSamePlace place.old place.new }
        ensures answer { Answers R.layout self.now.job.now self.now.number ready.now.a.gate 4
            place.old.me.0 place.new.me.0 result.0 }
        ensures b { IfSome result.1 (λ labels. labels.b
            ≡ active self.now.job.now (set_of self.now.job.now ready.now.b.gate)) }
        ensures c { IfSome result.1 (λ labels. labels.c
            ≡ active self.now.job.now (set_of self.now.job.now ready.now.c.gate)) }
        ensures d { IfSome result.1 (λ labels. labels.d
            ≡ active self.now.job.now (set_of self.now.job.now ready.now.d.gate)) }
    {
        if let Some(answer) = self.take(place, ready.a.gate, ready.a.free) {
            return (answer, None);
        }
        let labels = self.labels_of_four(ready);
        let label = labels.a;
        self.put(place, ready.a.gate, label);
        (Answer::Made(label), Some(labels))
    }

    /// Makes four gates that are prepared, each where no seat has it by now.
    fn make_four(
        &self,
        place: &mut Place<J>,
        ready: &Four<Prepared>,
    ) -> (Answer, Answer, Answer, Answer)
        requires place { IsPlaceAt R.layout J.gates self.now.words.now.table_id
            self.now.words.now.key place.old self.now.number ready.now.a.gate }
        requires empty { IsIdle place.old.me.0 }
        requires exist { (ready.now.b.gate < J.gates self.now.words.now.key.about)
            × (ready.now.c.gate < J.gates self.now.words.now.key.about)
            × (ready.now.d.gate < J.gates self.now.words.now.key.about) }
        requires a { IsPrepared self.now.job.now self.now.number place.old.me.0 ready.now.a }
        requires b { IsPrepared self.now.job.now self.now.number place.old.me.0 ready.now.b }
        requires c { IsPrepared self.now.job.now self.now.number place.old.me.0 ready.now.c }
        requires d { IsPrepared self.now.job.now self.now.number place.old.me.0 ready.now.d }
        ensures same { IsSamePlace place.old place.new }
        ensures answers { AnswersFour R.layout self.now.job.now self.now.number
            ready.now.a.gate ready.now.b.gate ready.now.c.gate ready.now.d.gate 37
            place.old.me.0 place.new.me.0 result }
    {
        let (answer, labels) = self.make_with_three(place, ready);
        let Some(labels) = labels else {
            let b_answer = self.step(place, ready.b.gate);
            let (c_answer, d_answer) = self.step_two(place, ready.c.gate, ready.d.gate);
            return (answer, b_answer, c_answer, d_answer);
        };
        let label = labels.b;
        let b_answer = self.publish(place, &ready.b, label);
        let label = labels.c;
        let c_answer = self.publish(place, &ready.c, label);
        let label = labels.d;
        let d_answer = self.publish(place, &ready.d, label);
        (answer, b_answer, c_answer, d_answer)
    }

    /// Steps four gates, as [`Round::step`] steps one, in at most 72 atomic steps. Where all are found ready, the
    /// labels of four AND gates are computed at once, when the first is claimed and before the others are; else it
    /// steps two gates and two gates. The caller ensures that the place is inside the round with an empty hand, and
    /// that there are such gates.
    pub fn step_four(
        &self,
        place: &mut Place<J>,
        gates: Four<u32>,
    ) -> (Answer, Answer, Answer, Answer)
        requires place { IsPlaceAt R.layout J.gates self.now.words.now.table_id
            self.now.words.now.key place.old self.now.number gates.a }
        requires empty { IsIdle place.old.me.0 }
        requires exist { (gates.b < J.gates self.now.words.now.key.about)
            × (gates.c < J.gates self.now.words.now.key.about)
            × (gates.d < J.gates self.now.words.now.key.about) }
        ensures same { IsSamePlace place.old place.new }
        ensures answers { AnswersFour R.layout self.now.job.now self.now.number
            gates.a gates.b gates.c gates.d 72 place.old.me.0 place.new.me.0 result }
    {
        let Four { a, b, c, d } = gates;
        let a_found = self.prepare(place, a);
        let b_found = self.prepare(place, b);
        let c_found = self.prepare(place, c);
        let d_found = self.prepare(place, d);
        let (Ok(a), Ok(b), Ok(c), Ok(d)) = (a_found, b_found, c_found, d_found) else {
            let (a_answer, b_answer) = self.step_two(place, a, b);
            let (c_answer, d_answer) = self.step_two(place, c, d);
            return (a_answer, b_answer, c_answer, d_answer);
        };
        self.make_four(place, &Four { a, b, c, d })
    }
}
