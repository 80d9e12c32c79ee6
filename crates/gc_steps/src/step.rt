//! A step of one gate: it is claimed, then its label is computed and published.

ghost use Rattle.std.specs.Prelude.{◌≡◌, ◌+◌, ◌<◌, ◌≤◌, IfSome, IfNone};
ghost use Rattle.gc_label.specs.Label.{low_half, high_half};
ghost use Rattle.gc_workers.specs.declared.states.TheConstants.{FREE};
ghost use Rattle.gc_rounds.specs.Words.{stamp};
ghost use Rattle.gc_rounds.specs.Places.{IsSamePlace};
ghost use Rattle.gc_gates.specs.declared.view.Hand.TheVariants.{Has};
ghost use Rattle.gc_gates.specs.Pairs.{pairs, looked};
ghost use Rattle.gc_gates.specs.Places.{IsPlaceAt};
ghost use Rattle.gc_gates.specs.Steps.{after_stored, after_done};
ghost use Rattle.gc_job.specs.ActiveLabels.{active, set_of};
ghost use Rattle.gc_steps.specs.Views.{IsMadeNow, IsIdle, Answers, IsPrepared, IsAlone, AnswersAlone, after_taken};

use crate::answer::Answer;
use crate::jobs::Jobs;
use crate::round::{Prepared, Round};
use gc_gates::{Frame, GateAt, Place, claim, store_done, store_high, store_low};
use gc_label::Label;
use gc_rounds::stamped;
use gc_workers::{DONE, IN_HAND};
use std::alloc::Allocator;

impl<'w, 'c, J: Jobs, R: Frame<J>, B: Allocator, A: Allocator, C: Allocator> Round<
    'w,
    'c,
    J,
    R,
    B,
    A,
    C,
> {
    /// Takes a gate in hand whose state word was found free, where no seat has it since; else the result.
    pub(crate) fn take(&self, place: &mut Place<J>, gate: u32, free: u64) -> Option<Answer>
        requires place { IsPlaceAt R.layout J.gates self.now.words.now.table_id
            self.now.words.now.key place.old self.now.number gate }
        requires empty { IsIdle place.old.me.0 }
        requires free { (0 < looked self.now.number gate free place.old.me.0.inner.looks)
            × (free ≤ stamp self.now.number FREE) }
        ensures same { IsSamePlace place.old place.new }
        ensures some { IfSome result (Answers R.layout self.now.job.now self.now.number gate 3
            place.old.me.0 place.new.me.0) }
        ensures none { IfNone result
            ((place.new.me.0 ≡ after_taken R.layout place.old.me.0 self.now.number gate free)
            × (pairs self.now.number gate place.old.me.0.inner.known ≡ 0)) }
        ensures alone { IsAlone place.old.me.0
            → pairs self.now.number gate place.old.me.0.inner.made ≡ 0 → IfSome result (λ _. ⊥) }
    {
        let at = GateAt {
            round: self.number,
            gate,
        };
        let found = claim(self.words, place, at, free);
        if found == stamped(self.number, DONE) {
            return Some(Answer::Done(self.load_label(place, gate)));
        }
        if found == stamped(self.number, IN_HAND) {
            return Some(Answer::Taken);
        }
        None
    }

    /// Publishes the label of the gate in hand, which is done from then on.
    pub(crate) fn put(&self, place: &mut Place<J>, gate: u32, label: Label)
        requires place { IsPlaceAt R.layout J.gates self.now.words.now.table_id
            self.now.words.now.key place.old self.now.number gate }
        requires has { place.old.me.0.inner.hand ≡ Has self.now.number gate 0 }
        requires right { label ≡ active self.now.job.now (set_of self.now.job.now gate) }
        ensures same { IsSamePlace place.old place.new }
        ensures view { place.new.me.0 ≡ after_done R.layout (after_stored (after_stored
            place.old.me.0
            self.now.number gate 1 (R.layout.at self.now.number gate + 1) (low_half label))
            self.now.number gate 2 (R.layout.at self.now.number gate + 2) (high_half label))
            self.now.number gate }
    {
        let at = GateAt {
            round: self.number,
            gate,
        };
        let (low, high) = label.halves();
        store_low(self.words, place, at, low);
        store_high(self.words, place, at, high);
        store_done(self.words, place, at);
    }

    /// Makes a gate that is prepared and whose label is computed, where no seat has it by now.
    pub(crate) fn publish(&self, place: &mut Place<J>, ready: &Prepared, label: Label) -> Answer
        requires place { IsPlaceAt R.layout J.gates self.now.words.now.table_id
            self.now.words.now.key place.old self.now.number ready.now.gate }
        requires empty { IsIdle place.old.me.0 }
        requires free { (0 < looked self.now.number ready.now.gate ready.now.free
            place.old.me.0.inner.looks) × (ready.now.free ≤ stamp self.now.number FREE) }
        requires right { label ≡ active self.now.job.now (set_of self.now.job.now ready.now.gate) }
        ensures same { IsSamePlace place.old place.new }
        ensures answer { Answers R.layout self.now.job.now self.now.number ready.now.gate 4
            place.old.me.0 place.new.me.0 result }
        ensures alone { IsAlone place.old.me.0
            → pairs self.now.number ready.now.gate place.old.me.0.inner.made ≡ 0
            → IsMadeNow result }
    {
        if let Some(answer) = self.take(place, ready.gate, ready.free) {
            return answer;
        }
        self.put(place, ready.gate, label);
        Answer::Made(label)
    }

    /// Makes a gate that is prepared, where no seat has it by now.
    pub(crate) fn make(&self, place: &mut Place<J>, ready: Prepared) -> Answer
        requires place { IsPlaceAt R.layout J.gates self.now.words.now.table_id
            self.now.words.now.key place.old self.now.number ready.gate }
        requires empty { IsIdle place.old.me.0 }
        requires ready { IsPrepared self.now.job.now self.now.number place.old.me.0 ready }
        ensures same { IsSamePlace place.old place.new }
        ensures answer { Answers R.layout self.now.job.now self.now.number ready.gate 4
            place.old.me.0 place.new.me.0 result }
        ensures alone { IsAlone place.old.me.0
            → pairs self.now.number ready.gate place.old.me.0.inner.made ≡ 0 → IsMadeNow result }
    {
        if let Some(answer) = self.take(place, ready.gate, ready.free) {
            return answer;
        }
        let read = ready.read_gate();
        let label = self.job.active_by(self.wiring, &read);
        self.put(place, ready.gate, label);
        Answer::Made(label)
    }

    /// Makes a gate, or says why not, in at most 11 atomic steps. The caller ensures that the place is inside the round
    /// with an empty hand, and that there is such a gate.
    pub fn step(&self, place: &mut Place<J>, gate: u32) -> Answer
        requires place { IsPlaceAt R.layout J.gates self.now.words.now.table_id
            self.now.words.now.key place.old self.now.number gate }
        requires empty { IsIdle place.old.me.0 }
        ensures same { IsSamePlace place.old place.new }
        ensures answer { Answers R.layout self.now.job.now self.now.number gate 11
            place.old.me.0 place.new.me.0 result }
        ensures alone { IsAlone place.old.me.0
            → AnswersAlone self.now.job.now self.now.number gate place.old.me.0 result }
    {
        match self.prepare(place, gate) {
            Ok(ready) => self.make(place, ready),
            Err(answer) => answer,
        }
    }
}
