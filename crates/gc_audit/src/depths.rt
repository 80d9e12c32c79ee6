//! The depths of wires.

ghost use Rattle.std.specs.Prelude.{◌≡◌, ◌<◌, ◌+◌, max, length};
ghost use Rattle.gc_netlist.specs.Circuit.{EachRead};
ghost use Rattle.gc_audit.specs.Depths.{AreDepthsBelow, depths_in, depths_of};

use gc_circuit::Operation;

/// The depth and the AND depth of a wire, or the greatest ones of several wires.
#[derive(Clone, Copy)]
pub(crate) struct Depths {
    pub(crate) depth: u32,
    pub(crate) and_depth: u32,
}

impl Depths {
    /// Those of an input wire.
    pub(crate) const ZERO: Depths = Depths {
        depth: 0,
        and_depth: 0,
    };

    /// The greater depth, and the greater AND depth.
    pub(crate) fn max(self, other: Depths) -> Depths
        ensures depth { result.depth ≡ max self.depth other.depth }
        ensures and_depth { result.and_depth ≡ max self.and_depth other.and_depth }
    {
        Depths {
            depth: self.depth.max(other.depth),
            and_depth: self.and_depth.max(other.and_depth),
        }
    }

    /// The depths of the wire that an operation sets, from those of all wires. The caller ensures that the operation
    /// reads wires, whose depths are below the greatest number.
    pub(crate) fn of(table: &[Depths], operation: Operation) -> Depths
        requires wires { EachRead (λ w. w < length table.now) operation }
        requires shallow { EachRead (λ w. AreDepthsBelow u32.MAX (depths_in table.now w))
            operation }
        ensures { result ≡ depths_of (depths_in table.now) operation }
    {
        match operation {
            Operation::Xor(a, b) => table[a as usize].max(table[b as usize]).past_gate(),
            Operation::And(a, b) => table[a as usize].max(table[b as usize]).past_and(),
            Operation::Inv(a) | Operation::Eqw(a) => table[a as usize].past_gate(),
            Operation::Eq(_) => Depths::ZERO.past_gate(),
        }
    }

    /// The depths past a gate that is no AND gate.
    fn past_gate(self) -> Depths
        requires { self.depth < u32.MAX }
        ensures depth { result.depth ≡ self.depth + 1 }
        ensures and_depth { result.and_depth ≡ self.and_depth }
    {
        Depths {
            depth: self.depth + 1,
            and_depth: self.and_depth,
        }
    }

    /// The depths past an AND gate.
    fn past_and(self) -> Depths
        requires { AreDepthsBelow u32.MAX self }
        ensures depth { result.depth ≡ self.depth + 1 }
        ensures and_depth { result.and_depth ≡ self.and_depth + 1 }
    {
        Depths {
            depth: self.depth + 1,
            and_depth: self.and_depth + 1,
        }
    }
}
