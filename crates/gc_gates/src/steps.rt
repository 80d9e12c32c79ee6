//! The six kinds of atomic step on the words of a gate, by a seat that is inside a round. A store of a half is
//! one kind, with a call for each half.

ghost use Rattle.std.specs.Prelude.{◌≡◌, ℕ, ◌+◌, ◌*◌, ◌<◌, ◌≤◌, ◌⊎◌};
ghost use Rattle.gc_rounds.specs.Words.{stamp};
ghost use Rattle.gc_rounds.specs.Places.{IsSamePlace};
ghost use Rattle.gc_gates.specs.declared.view.Hand.TheVariants.{Empty, Has};
ghost use Rattle.gc_gates.specs.Pairs.{pairs, looked};
ghost use Rattle.gc_gates.specs.Steps.{Finds, after_state, after_half, after_claim, after_stored, after_done};
ghost use Rattle.gc_gates.specs.Places.{IsPlaceAt};

use crate::frame::Frame;
use crate::kinds::{Claim, LoadHigh, LoadLow, LoadState, StoreDone, StoreHalf};
use crate::view::{GateView, Subject};
use atomic_table::Shared;
use gc_rounds::{Key, View, stamped};
use gc_workers::{DONE, FREE, IN_HAND};

/// The words of a table, as many threads share them.
pub type Words<J, R> = Shared<u8, View<GateView<J>>, Key<J>, R>;

/// A seat at the words, with its view. It has no bytes.
pub type Place<J> = gc_rounds::Place<GateView<J>>;

/// A gate in a round.
#[derive(Clone, Copy)]
pub struct GateAt {
    pub round: u32,
    pub gate: u32,
}

/// Loads the state word of a gate.
#[inline]
pub fn load_state<J: Subject, R: Frame<J>>(
    words: &Words<J, R>,
    place: &mut Place<J>,
    at: GateAt,
) -> u64
    requires { IsPlaceAt R.layout J.gates words.now.table_id words.now.key
        place.old at.round at.gate }
    ensures same { IsSamePlace place.old place.new }
    ensures view { place.new.me.0 ≡ after_state R.layout place.old.me.0 at.round at.gate result }
    ensures finds { Finds place.old.me.0 at.round at.gate result }
{
    words.load::<LoadState<R>>(place, R::index(at.round, at.gate))
}

/// Loads the low half of a gate that is known in the round.
#[inline]
pub fn load_low<J: Subject, R: Frame<J>>(
    words: &Words<J, R>,
    place: &mut Place<J>,
    at: GateAt,
) -> u64
    requires place { IsPlaceAt R.layout J.gates words.now.table_id words.now.key
        place.old at.round at.gate }
    requires known { 0 < pairs at.round at.gate place.old.me.0.inner.known }
    ensures same { IsSamePlace place.old place.new }
    ensures view { place.new.me.0
        ≡ after_half place.old.me.0 (R.layout.at at.round at.gate + 1) result }
    ensures found { J.right words.now.key.about at.round at.gate 0 result }
{
    words.load::<LoadLow<R>>(place, R::index(at.round, at.gate) + 1)
}

/// Loads the high half of a gate that is known in the round.
#[inline]
pub fn load_high<J: Subject, R: Frame<J>>(
    words: &Words<J, R>,
    place: &mut Place<J>,
    at: GateAt,
) -> u64
    requires place { IsPlaceAt R.layout J.gates words.now.table_id words.now.key
        place.old at.round at.gate }
    requires known { 0 < pairs at.round at.gate place.old.me.0.inner.known }
    ensures same { IsSamePlace place.old place.new }
    ensures view { place.new.me.0
        ≡ after_half place.old.me.0 (R.layout.at at.round at.gate + 2) result }
    ensures found { J.right words.now.key.about at.round at.gate 1 result }
{
    words.load::<LoadHigh<R>>(place, R::index(at.round, at.gate) + 2)
}

/// Exchanges the state word of a gate from the free word that a load found to `IN_HAND` in the round, and returns the
/// word that it found. Where that is the free word, the gate is in hand.
#[inline]
pub fn claim<J: Subject, R: Frame<J>>(
    words: &Words<J, R>,
    place: &mut Place<J>,
    at: GateAt,
    old: u64,
) -> u64
    requires place { IsPlaceAt R.layout J.gates words.now.table_id words.now.key
        place.old at.round at.gate }
    requires empty { place.old.me.0.inner.hand ≡ Empty }
    requires seated { 0 < place.old.me.0.seats }
    requires looked { 0 < looked at.round at.gate old place.old.me.0.inner.looks }
    requires free { old ≤ stamp at.round FREE }
    ensures same { IsSamePlace place.old place.new }
    ensures view { place.new.me.0
        ≡ after_claim R.layout place.old.me.0 at.round at.gate old result }
    ensures finds { Finds place.old.me.0 at.round at.gate result }
    ensures found { (result ≡ old) ⊎ (stamp at.round FREE < result) }
{
    words.compare_exchange::<Claim<R>>(
        place,
        R::index(at.round, at.gate),
        old,
        stamped(at.round, IN_HAND),
    )
}

/// Stores the low half of the gate in hand.
#[inline]
pub fn store_low<J: Subject, R: Frame<J>>(
    words: &Words<J, R>,
    place: &mut Place<J>,
    at: GateAt,
    low: u64,
)
    requires place { IsPlaceAt R.layout J.gates words.now.table_id words.now.key
        place.old at.round at.gate }
    requires has { place.old.me.0.inner.hand ≡ Has at.round at.gate 0 }
    requires right { J.right words.now.key.about at.round at.gate 0 low }
    ensures same { IsSamePlace place.old place.new }
    ensures view { place.new.me.0
        ≡ after_stored place.old.me.0 at.round at.gate 1 (R.layout.at at.round at.gate + 1) low }
{
    words.store::<StoreHalf>(place, R::index(at.round, at.gate) + 1, low);
}

/// Stores the high half of the gate in hand, after the low half.
#[inline]
pub fn store_high<J: Subject, R: Frame<J>>(
    words: &Words<J, R>,
    place: &mut Place<J>,
    at: GateAt,
    high: u64,
)
    requires place { IsPlaceAt R.layout J.gates words.now.table_id words.now.key
        place.old at.round at.gate }
    requires has { place.old.me.0.inner.hand ≡ Has at.round at.gate 1 }
    requires right { J.right words.now.key.about at.round at.gate 1 high }
    ensures same { IsSamePlace place.old place.new }
    ensures view { place.new.me.0
        ≡ after_stored place.old.me.0 at.round at.gate 2 (R.layout.at at.round at.gate + 2) high }
{
    words.store::<StoreHalf>(place, R::index(at.round, at.gate) + 2, high);
}

/// Stores `DONE` in the round for the gate in hand, after both halves: the gate is made.
#[inline]
pub fn store_done<J: Subject, R: Frame<J>>(words: &Words<J, R>, place: &mut Place<J>, at: GateAt)
    requires place { IsPlaceAt R.layout J.gates words.now.table_id words.now.key
        place.old at.round at.gate }
    requires has { place.old.me.0.inner.hand ≡ Has at.round at.gate 2 }
    ensures same { IsSamePlace place.old place.new }
    ensures view { place.new.me.0 ≡ after_done R.layout place.old.me.0 at.round at.gate }
{
    words.store::<StoreDone<R>>(place, R::index(at.round, at.gate), stamped(at.round, DONE));
}
