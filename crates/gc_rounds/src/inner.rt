//! What a table of banks keeps besides the banks' words.

ghost use Rattle.std.specs.Prelude.{ℕ, List};
ghost use Rattle.gc_rounds.specs.declared.view.View.{View};
ghost use Rattle.gc_rounds.specs.Laws.{Opens, Moves, DealsSeat, Joins};

/// What a seat knows besides where it is, and a rule about that and about the words after the banks' two.
pub trait Inner<T> {
    /// How many of these words there are.
    ghost size: { T → ℕ };

    /// What the view that stands for all seats knows at the opening.
    ghost first: { T → Self };

    /// What a seat knows that is dealt out of a view.
    ghost fresh: { Self → Self };

    /// What two views know together.
    ghost both: { Self → Self → Self };

    /// What is left of a view that was joined to another.
    ghost spent: { Self };

    /// The seat may enter or leave.
    ghost idle: { Self → Type 0 };

    /// The rule.
    ghost holds: { T → List ℕ → List (View Self) → Type 0 };
}

/// An inner rule that holds at the opening, and that the steps on the banks' words keep, and the dealing and joining of
/// seats too.
pub trait KeptInner<T>: Inner<T> {
    ghost opens: { Opens Self.holds Self.size Self.first };

    ghost moves: { Moves Self.holds Self.idle };

    ghost deals: { DealsSeat Self.holds Self.fresh };

    ghost joins: { Joins Self.holds Self.idle Self.both Self.spent };
}
