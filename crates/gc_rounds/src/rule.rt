//! The rule of a table of banks.

use crate::inner::Inner;
use crate::view::{Key, View};
use atomic_table::TableRule;

/// The rule: `BanksSound` in `specs/Banks.antt`, and the inner rule.
pub struct Rule;

impl<T, I: Inner<T>> TableRule<u8, View<I>, Key<T>> for Rule {
    ghost use Rattle.gc_rounds.specs.Banks.{BanksSound};
    ghost use Rattle.gc_rounds.specs.Steps.{starting};

    ghost holds = { λ key s. BanksSound key.jobs key.seats s.words s.views
        × I.holds key.about s.words s.views };

    ghost first = { λ key. starting key.jobs key.seats (I.first key.about) };
}
