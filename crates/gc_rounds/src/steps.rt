//! The four kinds of atomic step on the word of a bank.

ghost use Rattle.std.specs.Prelude.{◌≡◌, ℕ, ◌+◌, ◌<◌, ◌==◌};
ghost use Rattle.gc_rounds.specs.declared.view.Position.TheVariants.{Outside, Inside};
ghost use Rattle.gc_rounds.specs.declared.view.Step.TheVariants.{Enter, Leave, Seal, Reopen};
ghost use Rattle.gc_rounds.specs.Words.{mark_of, bank_of, shut_word};
ghost use Rattle.gc_rounds.specs.Views.{counted};
ghost use Rattle.gc_rounds.specs.Steps.{recorded, position_after, IsOwn};
ghost use Rattle.gc_rounds.specs.Places.{IsPlaceOf, IsSamePlace};

use crate::inner::KeptInner;
use crate::kinds::{Advance, AskedRound, CountIn, CountOut, MarkSealed};
use crate::rule::Rule;
use crate::view::{Key, View};
use crate::words::{MARK, MAX_JOBS, stamped};
use atomic_table::{Seat, Shared};

/// The words of the banks, as many threads share them.
pub type Words<T, I> = Shared<u8, View<I>, Key<T>, Rule>;

/// A seat at the words, with its view. It has no bytes.
pub type Place<I> = Seat<u8, View<I>>;

/// Counts the seat in at the bank of the round, and returns the word that it found there.
pub(crate) fn count_in<T, I: KeptInner<T>, Q: AskedRound>(
    words: &Words<T, I>,
    place: &mut Place<I>,
    round: u32,
) -> u64
    requires place { IsPlaceOf words.now.table_id words.now.key place.old }
    requires asked { (round ≡ Q.round) × (round < words.now.key.jobs) }
    requires outside { (place.old.me.0.position ≡ Outside) × (0 < place.old.me.0.seats)
        × I.idle place.old.me.0.inner }
    ensures same { IsSamePlace place.old place.new }
    ensures shape { mark_of result < 2 }
    ensures view { place.new.me.0
        ≡ recorded place.old.me.0 (position_after round result) (Enter (bank_of round) result) }
    ensures alone { place.old.me.0.seats ≡ place.old.me.0.all → IsOwn place.old.me.0 round result }
{
    words.fetch_add::<CountIn<Q>>(place, (round % 2) as usize, 1)
}

/// Takes a seat out that is counted in at the bank of the round, and returns the word that it found there.
pub(crate) fn count_out<T, I: KeptInner<T>>(
    words: &Words<T, I>,
    place: &mut Place<I>,
    round: u32,
) -> u64
    requires place { IsPlaceOf words.now.table_id words.now.key place.old }
    requires counted { (counted (bank_of round) place.old.me.0.position ≡ 1)
        × I.idle place.old.me.0.inner }
    ensures same { IsSamePlace place.old place.new }
    ensures view { place.new.me.0 ≡ recorded place.old.me.0 Outside (Leave (bank_of round) result) }
{
    words.fetch_sub::<CountOut>(place, (round % 2) as usize, 1)
}

/// Marks the bank of the round as sealed, and returns the word that it found there.
pub(crate) fn mark_sealed<T, I: KeptInner<T>>(
    words: &Words<T, I>,
    place: &mut Place<I>,
    round: u32,
) -> u64
    requires place { IsPlaceOf words.now.table_id words.now.key place.old }
    requires inside { place.old.me.0.position ≡ Inside round }
    ensures same { IsSamePlace place.old place.new }
    ensures view { place.new.me.0
        ≡ recorded place.old.me.0 (Inside round) (Seal (bank_of round) result) }
{
    words.fetch_or::<MarkSealed>(place, (round % 2) as usize, MARK)
}

/// Gives the bank of the round to the next round but one, where it is sealed and nobody is inside. It returns the word
/// that it found there.
pub(crate) fn give_on<T, I: KeptInner<T>>(
    words: &Words<T, I>,
    place: &mut Place<I>,
    round: u32,
) -> u64
    requires place { IsPlaceOf words.now.table_id words.now.key place.old }
    requires outside { place.old.me.0.position ≡ Outside }
    requires next { round + 2 < MAX_JOBS }
    ensures same { IsSamePlace place.old place.new }
    ensures shape { mark_of result < 2 }
    ensures view { place.new.me.0
        ≡ recorded place.old.me.0 Outside
        (Reopen (bank_of round) result (result == shut_word round)) }
{
    let sealed = stamped(round, MARK);
    let open = stamped(round + 2, 0);
    words.compare_exchange::<Advance>(place, (round % 2) as usize, sealed, open)
}
