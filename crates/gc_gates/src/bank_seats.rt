//! The table of two banks: how it is opened, and what its seats made when all are joined in one.

ghost use Rattle.std.specs.Prelude.{◌≡◌, ℕ, ◌+◌, ◌*◌, ◌<◌, ◌≤◌, [], IfOk};
ghost use Rattle.gc_rounds.specs.Steps.{starting};
ghost use Rattle.gc_rounds.specs.Places.{IsSamePlace};
ghost use Rattle.gc_gates.specs.Layout.{two_banks};
ghost use Rattle.gc_gates.specs.Gates.{IsOnce, first_view};
ghost use Rattle.gc_gates.specs.Places.{IsGatePlace};

use crate::kinds::LearnOnce;
use crate::steps::{Place, Words};
use crate::view::{GateView, Subject};
use gc_rounds::{Key, Rule, open_table};
use gc_workers::{MAX_WORKERS, OpenFault};
use std::alloc::{Allocator, Global};

/// The words of two banks with their memory.
pub type BankWords<J, A> = gc_rounds::WordTable<J, GateView<J>, A>;

/// The table, as one value.
#[derive(Drop)]
pub struct BankTable<J: Subject, A: Allocator = Global> {
    pub table: BankWords<J, A>,
}

/// A table with the words of this many gates in each bank, none of them made, and a place that stands for all seats. It
/// allocates the words twice, and frees one copy: 46 or 49 where an allocation fails.
pub fn open_banks<J: Subject, A: Allocator + Copy>(
    alloc: A,
    key: &Key<J>,
    gates: u32,
) -> Result<(BankWords<J, A>, Place<J>), OpenFault>
    requires gates { gates ≡ J.gates key.now.about }
    requires seats { (0 < key.now.seats) × (key.now.seats ≤ MAX_WORKERS) }
    ensures { IfOk result (λ t. (t.0.shared.key ≡ key.now)
        × IsGatePlace two_banks J.gates t.0.shared.table_id key.now t.1
        × (t.1.me ≡ (starting key.now.jobs key.now.seats (first_view key.now.about), []))) }
{
    open_table(alloc, key, 6 * gates as usize)
}

/// A place that stands for all seats learns, by one load, that each gate was made at most once in each round.
pub fn learn_once<J: Subject>(words: &Words<J, Rule>, place: &mut Place<J>)
    requires place { IsGatePlace two_banks J.gates words.now.table_id words.now.key place.old }
    requires all { place.old.me.0.seats ≡ place.old.me.0.all }
    ensures same { IsSamePlace place.old place.new }
    ensures made { place.new.me.0.inner.made ≡ place.old.me.0.inner.made }
    ensures once { IsOnce place.old.me.0.inner.made }
{
    words.load::<LearnOnce>(place, 0);
}
