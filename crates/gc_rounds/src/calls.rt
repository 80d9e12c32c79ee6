//! Entering, leaving, sealing and reopening a round. No call here waits or allocates.

ghost use Rattle.std.specs.Prelude.{◌≡◌, ℕ, ◌+◌, ◌<◌};
ghost use Rattle.gc_rounds.specs.declared.view.Position.TheVariants.{Outside, Inside};
ghost use Rattle.gc_rounds.specs.Calls.{Enters, EntersAlone, Leaves, Seals, Reopens};
ghost use Rattle.gc_rounds.specs.Places.{IsPlaceOf, IsSamePlace};

use crate::inner::KeptInner;
use crate::steps::{Place, Words, count_in, count_out, give_on, mark_sealed};
use crate::words::{MARK, MAX_JOBS, ROUND};
use std::marker::Brand;

/// What an entry found.
#[derive(Clone, Copy, Debug, PartialEq, Eq)]
pub enum Entry {
    /// The round was open: the seat is inside.
    Inside,
    /// The round was sealed: the seat is outside.
    Shut,
    /// The bank was in this other round: the seat is outside.
    OtherRound(u32),
}

/// What a try to reopen a bank found.
#[derive(Clone, Copy, Debug, PartialEq, Eq)]
pub enum Reopening {
    /// The bank went to the next round but one, open.
    Given,
    /// The round wasn't sealed.
    NotSealed,
    /// The round was sealed, with seats counted in.
    Busy,
    /// The bank was in this other round.
    OtherRound(u32),
}

/// Enters the round, where its bank is open in it; else the seat is taken out again.
pub fn enter<T, I: KeptInner<T>>(words: &Words<T, I>, place: &mut Place<I>, round: u32) -> Entry
    requires place { IsPlaceOf words.now.table_id words.now.key place.old }
    requires round { round < words.now.key.jobs }
    requires outside { (place.old.me.0.position ≡ Outside) × (0 < place.old.me.0.seats)
        × I.idle place.old.me.0.inner }
    ensures same { IsSamePlace place.old place.new }
    ensures found { Enters round place.old.me.0 place.new.me.0 result }
    ensures alone { place.old.me.0.seats ≡ place.old.me.0.all
        → EntersAlone round place.old.me.0 result }
{
    let found = count_in::<T, I, Brand>(words, place, round);
    let other = (found / ROUND) as u32;
    if other == round {
        if found / MARK % MARK == 0 {
            return Entry::Inside;
        }
        count_out(words, place, round);
        return Entry::Shut;
    }
    count_out(words, place, round);
    Entry::OtherRound(other)
}

/// Leaves the round that the seat is inside.
pub fn leave<T, I: KeptInner<T>>(words: &Words<T, I>, place: &mut Place<I>, round: u32)
    requires place { IsPlaceOf words.now.table_id words.now.key place.old }
    requires inside { (place.old.me.0.position ≡ Inside round) × I.idle place.old.me.0.inner }
    ensures same { IsSamePlace place.old place.new }
    ensures left { Leaves round place.old.me.0 place.new.me.0 }
{
    count_out(words, place, round);
}

/// Seals the round that the seat is inside: nobody enters it any more.
pub fn seal<T, I: KeptInner<T>>(words: &Words<T, I>, place: &mut Place<I>, round: u32)
    requires place { IsPlaceOf words.now.table_id words.now.key place.old }
    requires inside { place.old.me.0.position ≡ Inside round }
    ensures same { IsSamePlace place.old place.new }
    ensures sealed { Seals round place.old.me.0 place.new.me.0 }
{
    mark_sealed(words, place, round);
}

/// Gives the round's bank to the next round but one, where it is sealed and all have left.
pub fn reopen<T, I: KeptInner<T>>(
    words: &Words<T, I>,
    place: &mut Place<I>,
    round: u32,
) -> Reopening
    requires place { IsPlaceOf words.now.table_id words.now.key place.old }
    requires outside { place.old.me.0.position ≡ Outside }
    requires next { round + 2 < MAX_JOBS }
    ensures same { IsSamePlace place.old place.new }
    ensures found { Reopens round place.old.me.0 place.new.me.0 result }
{
    let found = give_on(words, place, round);
    let other = (found / ROUND) as u32;
    if other != round {
        return Reopening::OtherRound(other);
    }
    if found / MARK % MARK == 0 {
        return Reopening::NotSealed;
    }
    if found % MARK == 0 {
        Reopening::Given
    } else {
        Reopening::Busy
    }
}
