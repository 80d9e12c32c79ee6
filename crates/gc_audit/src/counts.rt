//! How many gates have each operation.

ghost use Rattle.std.specs.Prelude.{◌≡◌, ◌+◌};
ghost use Rattle.gc_netlist.specs.Circuit.{is_and};
ghost use Rattle.gc_audit.specs.Stats.{is_xor, is_inv, is_eq, is_eqw};
ghost use Rattle.gc_audit.specs.Counts.{AreCountsBelow, one_if};

use gc_circuit::Operation;

/// How many gates have each operation.
#[derive(Clone, Copy)]
pub(crate) struct Counts {
    pub(crate) xor: u32,
    pub(crate) and: u32,
    pub(crate) inv: u32,
    pub(crate) eq: u32,
    pub(crate) eqw: u32,
}

impl Counts {
    /// No gate is counted yet.
    pub(crate) const ZERO: Counts = Counts {
        xor: 0,
        and: 0,
        inv: 0,
        eq: 0,
        eqw: 0,
    };

    /// Counts one more gate, which has this operation.
    pub(crate) fn add(&mut self, operation: Operation)
        requires { AreCountsBelow u32.MAX self.old }
        ensures xor { self.new.xor ≡ self.old.xor + one_if (is_xor operation) }
        ensures and { self.new.and ≡ self.old.and + one_if (is_and operation) }
        ensures inv { self.new.inv ≡ self.old.inv + one_if (is_inv operation) }
        ensures eq { self.new.eq ≡ self.old.eq + one_if (is_eq operation) }
        ensures eqw { self.new.eqw ≡ self.old.eqw + one_if (is_eqw operation) }
    {
        match operation {
            Operation::Xor(_, _) => self.xor += 1,
            Operation::And(_, _) => self.and += 1,
            Operation::Inv(_) => self.inv += 1,
            Operation::Eq(_) => self.eq += 1,
            Operation::Eqw(_) => self.eqw += 1,
        }
    }
}
