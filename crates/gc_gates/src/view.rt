//! What a seat knows of the gates.

ghost use Rattle.std.specs.Prelude.{ℕ};

use std::collections::LinkedList;

/// What the words are about: how many gates there are, and which numbers are right, in a round, as the low half (half
/// 0) and the high half (half 1) of each gate.
pub trait Subject {
    ghost gates: { Self → ℕ };

    ghost right: { Self → ℕ → ℕ → ℕ → ℕ → Type 0 };
}

/// What a seat has in hand: nothing, or a gate in a round, and how many of its halves are stored.
pub enum Hand {
    Empty,
    Has(u32, u32, u32),
}

/// What a seat knows of the gates. Only contracts see it: no value of it is made.
pub struct GateView<J> {
    /// The subject, and none in a view that was joined to another.
    pub job: Option<J>,
    pub hand: Hand,
    /// The rounds and gates that the seat made, in order.
    pub made: LinkedList<(u32, u32)>,
    /// The rounds with the gates that it knows to be done in them.
    pub known: LinkedList<(u32, u32)>,
    /// Rounds and gates with the state words that its loads found in them.
    pub looks: LinkedList<(u32, u32, u64)>,
}
