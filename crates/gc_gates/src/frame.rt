//! Tables that have words of gates.

use crate::view::{GateView, Subject};
use atomic_table::TableRule;
use gc_rounds::{Key, View};

/// The rule of a table that has words of gates: where they lie, and what holds besides the rule of these words.
pub trait Frame<J: Subject>: TableRule<u8, View<GateView<J>>, Key<J>> {
    ghost use Rattle.std.specs.Prelude.{◌≡◌, ◌+◌, ◌<◌, ◌^◌, ℕ, List};
    ghost use Rattle.gc_gates.specs.Layout.{Layout};
    ghost use Rattle.gc_gates.specs.Frame.{FrameLaw};
    ghost use Rattle.gc_rounds.specs.declared.view.View as outer_view;
    ghost use Rattle.gc_rounds.specs.declared.view.Key as outer_key;
    ghost use Rattle.gc_gates.specs.declared.view.GateView as gate_view;

    /// Where the words lie, and which round they are in.
    ghost layout: { Layout };

    /// What holds besides `Sound`.
    ghost outer: { outer_key.Key J → List ℕ → List (outer_view.View (gate_view.GateView J))
        → Type 0 };

    /// The place of the state word of a gate in a round; its halves follow it.
    fn index(round: u32, gate: u32) -> usize
        ensures at { result ≡ layout.at round gate }
        ensures small { result + 2 < 2 ^ 64 };

    ghost law: { FrameLaw layout J.gates J.right outer Self.holds };
}
