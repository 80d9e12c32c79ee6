//! The table of the banks: how it is opened, and how its seats are dealt and joined.

ghost use Rattle.std.specs.Prelude.{◌≡◌, ℕ, ◌+◌, ◌-◌, ◌*◌, ◌<◌, ◌≤◌, ◌^◌, [], IfOk, length};
ghost use Rattle.gc_rounds.specs.declared.view.Position.TheVariants.{Outside};
ghost use Rattle.gc_rounds.specs.Words.{count_of, mark_of, round_of};
ghost use Rattle.gc_rounds.specs.Steps.{one_less, newcomer, merged, starting};
ghost use Rattle.gc_rounds.specs.Places.{IsSamePlace, IsTable, IsPlaceOf};

use crate::inner::{Inner, KeptInner};
use crate::kinds::{Deal, Merge};
use crate::rule::Rule;
use crate::steps::{Place, Words};
use crate::view::{Key, View};
use crate::words::{MARK, ROUND};
use atomic_table::Table;
use gc_workers::{MAX_WORKERS, OpenFault};
use std::alloc::Allocator;

/// The words with their memory.
pub type WordTable<T, I, A> = Table<u8, View<I>, Key<T>, Rule, A>;

/// The word of bank 1 at the opening: open in round 1, or sealed where there is no such job.
fn second_word(jobs: u32) -> u64
    ensures word { (round_of result ≡ 1) × (count_of result ≡ 0) × (mark_of result < 2)
        × (1 < jobs → mark_of result ≡ 0) }
    ensures sealed { jobs < 2 → mark_of result ≡ 1 }
{
    if jobs < 2 { ROUND + MARK } else { ROUND }
}

/// A table with bank 0 open in round 0, bank 1 in round 1, or sealed where there is one job, and this many words more,
/// all 0; and a place that stands for all seats. It allocates for the words twice over, and gives half of it back: 46
/// or 49 where it gets none.
pub fn open_table<T, I: KeptInner<T>, A: Allocator + Copy>(
    alloc: A,
    key: &Key<T>,
    size: usize,
) -> Result<(WordTable<T, I, A>, Place<I>), OpenFault>
    requires size { (size ≡ I.size key.now.about) × (size < 2 ^ 63) }
    requires seats { (0 < key.now.seats) × (key.now.seats ≤ MAX_WORKERS) }
    ensures { IfOk result (λ t. (t.0.shared.key ≡ key.now) × (t.0.shared.table_id.words ≡ 2 + size)
        × IsPlaceOf t.0.shared.table_id key.now t.1
        × (t.1.me ≡ (starting key.now.jobs key.now.seats (I.first key.now.about), []))) }
{
    let mut words = Vec::from_elem(alloc, 0u64, size + 2)?;
    words[1] = second_word(key.jobs);
    match Table::of_words(alloc, words.as_slice(), key) {
        Ok(opened) => Ok(opened),
        Err(_) => Err(OpenFault::NoTable),
    }
}

/// A new seat, out of a place that stands for several.
pub fn deal_place<T, I: KeptInner<T>>(words: &Words<T, I>, place: &mut Place<I>) -> Place<I>
    requires place { IsPlaceOf words.now.table_id words.now.key place.old }
    requires several { 1 < place.old.me.0.seats }
    requires outside { place.old.me.0.position ≡ Outside }
    ensures kept { IsSamePlace place.old place.new × (place.new.me.0 ≡ one_less place.old.me.0) }
    ensures given { IsPlaceOf words.now.table_id words.now.key result
        × (result.me ≡ (newcomer place.old.me.0 (I.fresh place.old.me.0.inner), [])) }
{
    words.split_seat::<Deal<T>>(place)
}

/// `other` ends, and `place` has what it had.
pub fn join_place<T, I: KeptInner<T>>(words: &Words<T, I>, place: &mut Place<I>, other: Place<I>)
    requires place { IsPlaceOf words.now.table_id words.now.key place.old }
    requires other { IsPlaceOf words.now.table_id words.now.key other }
    requires idle { (other.me.0.position ≡ Outside) × I.idle other.me.0.inner × (other.me.1 ≡ []) }
    ensures { IsSamePlace place.old place.new
        × (place.new.me.0
        ≡ merged place.old.me.0 other.me.0 (I.both place.old.me.0.inner other.me.0.inner)) }
{
    words.join_seat::<Merge<T>>(place, other);
}
