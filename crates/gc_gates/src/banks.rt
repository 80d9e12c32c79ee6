//! The rule of the gates' words as the inner rule of a table of banks, and that table as a frame of them.

use crate::frame::Frame;
use crate::view::{GateView, Subject};
use gc_rounds::{Inner, KeptInner, Rule};

impl<J: Subject> Inner<J> for GateView<J> {
    ghost use Rattle.std.specs.Prelude.{◌≡◌, ◌*◌};
    ghost use Rattle.gc_gates.specs.Layout.{two_banks};
    ghost use Rattle.gc_gates.specs.Gates.{Sound, first_view, fresh_view, no_view};
    ghost use Rattle.gc_gates.specs.Steps.{joined};
    ghost use Rattle.gc_gates.specs.declared.view.Hand.TheVariants.{Empty};

    ghost size = { λ job. 6 * J.gates job };

    ghost first = { first_view };

    ghost fresh = { fresh_view };

    ghost both = { joined };

    ghost spent = { no_view };

    ghost idle = { λ v. v.hand ≡ Empty };

    ghost holds = { Sound two_banks J.gates J.right };
}

impl<J: Subject> KeptInner<J> for GateView<J> {
    ghost use Rattle.gc_gates.specs.BankLaws as laws;

    ghost opens = { laws.opens J.gates J.right };

    ghost moves = { laws.moves J.gates J.right };

    ghost deals = { laws.deals J.gates J.right };

    ghost joins = { laws.joins J.gates J.right };
}

impl<J: Subject> Frame<J> for Rule {
    ghost use Rattle.gc_rounds.specs.Banks.{BanksSound};
    ghost use Rattle.gc_gates.specs.Layout.{two_banks};
    ghost use Rattle.gc_gates.specs.BankLaws as laws;

    ghost layout = { two_banks };

    ghost outer = { λ key words views. BanksSound key.jobs key.seats words views };

    #[inline]
    fn index(round: u32, gate: u32) -> usize {
        2 + 6 * gate as usize + 3 * (round % 2) as usize
    }

    ghost law = { laws.two_banks_law J.gates J.right };
}
