//! The table of one board: how it is opened and closed, and how its seats are dealt, share what they know and are
//! joined.

ghost use Rattle.std.specs.Prelude.{◌≡◌, ℕ, ◌+◌, ◌*◌, ◌<◌, [], IfOk, IfErr, replicate};
ghost use Rattle.std.specs.Slots.{slots_items, slots_len, IsFull};
ghost use Rattle.gc_rounds.specs.Places.{IsSamePlace};
ghost use Rattle.gc_rounds.specs.Steps.{one_less, merged};
ghost use Rattle.gc_gates.specs.declared.view.Hand.TheVariants.{Empty};
ghost use Rattle.gc_gates.specs.Layout.{one_round};
ghost use Rattle.gc_gates.specs.Board.{first_seat, dealt_seat, note_of, AtRest};
ghost use Rattle.gc_gates.specs.Places.{IsGatePlace, IsPlaceInside};
ghost use Rattle.gc_gates.specs.Steps.{joined};

use crate::board::OneRound;
use crate::kinds::{Deal, Merge, Note};
use crate::steps::{Place, Words};
use crate::view::{GateView, Subject};
use atomic_table::{Closed, Table};
use gc_rounds::{Key, View};
use gc_workers::OpenFault;
use std::alloc::{AllocError, Allocator};

/// The words of a board with their memory.
pub type BoardWords<J, A> = Table<u8, View<GateView<J>>, Key<J>, OneRound, A>;

/// The words of a board of this many gates, all of which are free.
pub fn free_words<A: Allocator>(alloc: A, gates: u32) -> Result<Vec<u64, A>, AllocError>
    ensures { IfOk result (λ words. words.items ≡ replicate (3 * gates + 1) 0) }
{
    Vec::from_elem(alloc, 0u64, 3 * gates as usize + 1)
}

/// A table of these words, in which all gates are free, and a place that stands for all seats. It allocates a copy of
/// the words, returns 49 where there is no memory for it, and frees theirs.
pub fn open_board<J: Subject, A: Allocator>(
    alloc: A,
    key: &Key<J>,
    words: Vec<u64, A>,
) -> Result<(BoardWords<J, A>, Place<J>), OpenFault>
    requires words { words.items ≡ replicate (3 * J.gates key.now.about + 1) 0 }
    requires seats { 0 < key.now.seats }
    ensures opened { IfOk result (λ t. (t.0.shared.key ≡ key.now)
        × IsPlaceInside one_round J.gates t.0.shared.table_id key.now t.1 0
        × (t.1.me ≡ (first_seat key.now, []))) }
    ensures refused { IfErr result (λ fault. fault ≡ OpenFault.NoTable) }
{
    match Table::of_words(alloc, &words, key) {
        Ok(opened) => Ok(opened),
        Err(_) => Err(OpenFault::NoTable),
    }
}

/// A new seat, out of a place that stands for several.
pub fn deal_seat<J: Subject>(words: &Words<J, OneRound>, place: &mut Place<J>) -> Place<J>
    requires place { IsGatePlace one_round J.gates words.now.table_id words.now.key place.old }
    requires several { 1 < place.old.me.0.seats }
    ensures kept { IsSamePlace place.old place.new × (place.new.me.0 ≡ one_less place.old.me.0) }
    ensures given { (result.table_id ≡ place.old.table_id) × (result.me
        ≡ (dealt_seat place.old.me.0, [])) }
{
    words.split_seat::<Deal>(place)
}

/// `to` learns what `from` knows.
pub fn copy_known<J: Subject>(words: &Words<J, OneRound>, from: &mut Place<J>, to: &mut Place<J>)
    requires from { IsGatePlace one_round J.gates words.now.table_id words.now.key from.old }
    requires to { IsGatePlace one_round J.gates words.now.table_id words.now.key to.old }
    ensures from { IsSamePlace from.old from.new × (from.new.me.0 ≡ from.old.me.0) }
    ensures to { IsSamePlace to.old to.new × (to.new.me.0
        ≡ merged to.old.me.0 (note_of from.old.me.0)
        (joined to.old.me.0.inner (note_of from.old.me.0).inner)) }
{
    let note = words.split_seat::<Note>(from);
    words.join_seat::<Merge>(to, note);
}

/// `other` ends, and `place` has what it had.
pub fn join_seat<J: Subject>(words: &Words<J, OneRound>, place: &mut Place<J>, other: Place<J>)
    requires place { IsGatePlace one_round J.gates words.now.table_id words.now.key place.old }
    requires other { IsGatePlace one_round J.gates words.now.table_id words.now.key other }
    requires empty { (other.me.0.inner.hand ≡ Empty) × (other.me.1 ≡ []) }
    ensures { IsSamePlace place.old place.new
        × (place.new.me.0 ≡ merged place.old.me.0 other.me.0
        (joined place.old.me.0.inner other.me.0.inner)) }
{
    words.join_seat::<Merge>(place, other);
}

/// The words at the end, from the place that stands for all seats.
pub fn close_board<J: Subject, A: Allocator>(
    table: BoardWords<J, A>,
    place: Place<J>,
) -> Closed<u8, A>
    requires place { IsGatePlace one_round J.gates table.shared.table_id table.shared.key place }
    requires all { place.me.0.seats ≡ place.me.0.all }
    ensures words { (slots_len result.words ≡ table.shared.table_id.words)
        × (slots_len result.slots ≡ table.shared.table_id.slots)
        × IsFull result.words }
    ensures right { AtRest J.gates J.right table.shared.key.about
        (slots_items result.words) place.me.0.inner.made }
{
    table.close_with(place)
}
