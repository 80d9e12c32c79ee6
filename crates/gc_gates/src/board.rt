//! The rule of one board, which is in round 0.

use crate::frame::Frame;
use crate::view::{GateView, Subject};
use atomic_table::TableRule;
use gc_rounds::{Key, View};

/// The rule: the seats add up, and the words of the gates are sound.
pub struct OneRound;

impl<J: Subject> TableRule<u8, View<GateView<J>>, Key<J>> for OneRound {
    ghost use Rattle.gc_gates.specs.Layout.{one_round};
    ghost use Rattle.gc_gates.specs.Gates.{Sound};
    ghost use Rattle.gc_gates.specs.Board.{Dealt, first_seat};

    ghost holds = { λ key s. Dealt key.seats s.views
        × Sound one_round J.gates J.right key.about s.words s.views };

    ghost first = { first_seat };
}

impl<J: Subject> Frame<J> for OneRound {
    ghost use Rattle.gc_gates.specs.Layout.{one_round};
    ghost use Rattle.gc_gates.specs.Board.{Dealt};
    ghost use Rattle.gc_gates.specs.BoardLaw.{one_round_law};

    ghost layout = { one_round };

    ghost outer = { λ key words views. Dealt key.seats views };

    #[inline]
    fn index(round: u32, gate: u32) -> usize {
        3 * gate as usize
    }

    ghost law = { one_round_law J.gates J.right };
}
