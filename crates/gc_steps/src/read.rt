//! Reading labels in a round.

ghost use Rattle.std.specs.Prelude.{◌≡◌, ℕ, ◌<◌, IfSome, IfNone, IfOk, IfErr, MatchOption, MatchResult, Some};
ghost use Rattle.gc_rounds.specs.Places.{IsSamePlace};
ghost use Rattle.gc_gates.specs.Pairs.{pairs};
ghost use Rattle.gc_gates.specs.Places.{IsPlaceAt, IsPlaceInside};
ghost use Rattle.gc_job.specs.ActiveLabels.{active, set_of};
ghost use Rattle.gc_steps.specs.Walks.{made_now};
ghost use Rattle.gc_steps.specs.Views.{AreReadBy, Reads, Ran, IsIdle, Got, Lacks, Says, IsPrepared, Knows, IsAlone, SetsMade, ReadsMade, FirstLacking, AnswersAlone};

use crate::answer::Answer;
use crate::jobs::Jobs;
use crate::round::{Prepared, Round};
use gc_gates::{Frame, GateAt, Place, load_high, load_low, load_state};
use gc_label::Label;
use gc_rounds::stamped;
use gc_workers::{DONE, IN_HAND};
use std::alloc::Allocator;

impl<'w, 'c, J: Jobs, R: Frame<J>, B: Allocator, A: Allocator, C: Allocator> Round<
    'w,
    'c,
    J,
    R,
    B,
    A,
    C,
> {
    /// The label of a known gate, in two loads.
    pub(crate) fn load_label(&self, place: &mut Place<J>, gate: u32) -> Label
        requires place { IsPlaceAt R.layout J.gates self.now.words.now.table_id
            self.now.words.now.key place.old self.now.number gate }
        requires known { Knows place.old.me.0 self.now.number gate }
        ensures same { IsSamePlace place.old place.new }
        ensures ran { Ran place.old.me.0 place.new.me.0 place.old.me.0.inner.made 2 }
        ensures right { result ≡ active self.now.job.now (set_of self.now.job.now gate) }
    {
        let at = GateAt {
            round: self.number,
            gate,
        };
        let low = load_low(self.words, place, at);
        let high = load_high(self.words, place, at);
        Label::from_halves(low, high)
    }

    /// The label of a wire, where it is an input wire or the gate that sets it is found done, in at most 3 atomic
    /// steps. The caller ensures that the place is inside the round, and that there is such a wire.
    pub fn label(&self, place: &mut Place<J>, wire: u32) -> Option<Label>
        requires place { IsPlaceInside R.layout J.gates self.now.words.now.table_id
            self.now.words.now.key place.old self.now.number }
        requires wire { wire < self.now.job.now.circuit.wires }
        ensures same { IsSamePlace place.old place.new }
        ensures ran { Ran place.old.me.0 place.new.me.0 place.old.me.0.inner.made 3 }
        ensures some { IfSome result (Got self.now.job.now self.now.number wire place.new.me.0) }
        ensures none { IfNone result (Lacks R.layout self.now.job.now self.now.number wire
            place.old.me.0 place.new.me.0) }
        ensures alone { IsAlone place.old.me.0
            → MatchOption result (SetsMade self.now.job.now self.now.number wire place.old.me.0 0)
            (λ _. SetsMade self.now.job.now self.now.number wire place.old.me.0 1) }
    {
        if wire < self.job.circuit().input_wires() {
            return Some(self.job.input(wire));
        }
        let Some(gate) = self.wiring.setter(wire) else {
            return None;
        };
        let at = GateAt {
            round: self.number,
            gate,
        };
        if load_state(self.words, place, at) == stamped(self.number, DONE) {
            Some(self.load_label(place, gate))
        } else {
            None
        }
    }

    /// The label of a wire that a gate may read. The fault is the wire, where it has none.
    fn read(&self, place: &mut Place<J>, wire: Option<u32>) -> Result<Label, u32>
        requires place { IsPlaceInside R.layout J.gates self.now.words.now.table_id
            self.now.words.now.key place.old self.now.number }
        requires wire { IfSome wire (λ w. w < self.now.job.now.circuit.wires) }
        ensures same { IsSamePlace place.old place.new }
        ensures ran { Ran place.old.me.0 place.new.me.0 place.old.me.0.inner.made 3 }
        ensures ok { IfOk result (λ l. (w : ℕ) → wire ≡ Some w → l ≡ active self.now.job.now w) }
        ensures err { IfErr result (λ w. (wire ≡ Some w)
            × Lacks R.layout self.now.job.now self.now.number w place.old.me.0 place.new.me.0) }
        ensures alone { IsAlone place.old.me.0
            → MatchResult result (λ _. (w : ℕ) → wire ≡ Some w
            → SetsMade self.now.job.now self.now.number w place.old.me.0 1)
            (λ w. SetsMade self.now.job.now self.now.number w place.old.me.0 0) }
    {
        let Some(wire) = wire else {
            return Ok(Label::ZERO);
        };
        match self.label(place, wire) {
            Some(label) => Ok(label),
            None => Err(wire),
        }
    }

    /// The labels that a gate reads. The fault is the first wire that has none.
    fn read_both(&self, place: &mut Place<J>, gate: u32) -> Result<(Label, Label), u32>
        requires place { IsPlaceAt R.layout J.gates self.now.words.now.table_id
            self.now.words.now.key place.old self.now.number gate }
        ensures same { IsSamePlace place.old place.new }
        ensures ran { Ran place.old.me.0 place.new.me.0 place.old.me.0.inner.made 6 }
        ensures ok { IfOk result (AreReadBy self.now.job.now gate) }
        ensures err { IfErr result (λ w. Reads self.now.job.now.circuit gate w
            × Lacks R.layout self.now.job.now self.now.number w place.old.me.0 place.new.me.0) }
        ensures alone { IsAlone place.old.me.0
            → MatchResult result
            (λ _. ReadsMade self.now.job.now self.now.number gate place.old.me.0)
            (λ w. FirstLacking self.now.job.now self.now.number gate place.old.me.0 w) }
    {
        let operation = self.job.circuit().gate(gate).operation;
        let a = match self.read(place, operation.first_wire()) {
            Ok(label) => label,
            Err(wire) => return Err(wire),
        };
        let b = match self.read(place, operation.second_wire()) {
            Ok(label) => label,
            Err(wire) => return Err(wire),
        };
        Ok((a, b))
    }

    /// What a gate is made of, where its state word is found free and the labels that it reads are there. The fault is
    /// the result.
    pub(crate) fn prepare(&self, place: &mut Place<J>, gate: u32) -> Result<Prepared, Answer>
        requires place { IsPlaceAt R.layout J.gates self.now.words.now.table_id
            self.now.words.now.key place.old self.now.number gate }
        requires empty { IsIdle place.old.me.0 }
        ensures same { IsSamePlace place.old place.new }
        ensures ran { Ran place.old.me.0 place.new.me.0 place.old.me.0.inner.made 7 }
        ensures ok { IfOk result (λ ready. (ready.gate ≡ gate)
            × IsPrepared self.now.job.now self.now.number place.new.me.0 ready) }
        ensures err { IfErr result (λ answer. (made_now answer ≡ 0)
            × Says R.layout self.now.job.now self.now.number gate place.old.me.0 place.new.me.0
            answer) }
        ensures alone { IsAlone place.old.me.0
            → MatchResult result (λ _. (pairs self.now.number gate place.old.me.0.inner.made ≡ 0)
            × ReadsMade self.now.job.now self.now.number gate place.old.me.0)
            (AnswersAlone self.now.job.now self.now.number gate place.old.me.0) }
    {
        let at = GateAt {
            round: self.number,
            gate,
        };
        let free = load_state(self.words, place, at);
        if free == stamped(self.number, DONE) {
            return Err(Answer::Done(self.load_label(place, gate)));
        }
        if free == stamped(self.number, IN_HAND) {
            return Err(Answer::Taken);
        }
        match self.read_both(place, gate) {
            Ok(labels) => Ok(Prepared { gate, labels, free }),
            Err(wire) => Err(Answer::NotYet(wire)),
        }
    }
}
