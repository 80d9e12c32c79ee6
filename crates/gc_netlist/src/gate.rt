//! Gates, and what they compute.

ghost use Rattle.std.specs.Prelude.{◌≡◌};
ghost use Rattle.gc_netlist.specs.Circuit.{is_and, first_wire, second_wire, reads};

/// What a gate computes, and the wires that it reads. The names are those of the Bristol Fashion page.
#[derive(Clone, Copy, PartialEq, Eq, Debug)]
pub enum Operation {
    /// The exclusive or of two wires.
    Xor(u32, u32),
    /// The conjunction of two wires.
    And(u32, u32),
    /// The negation of a wire.
    Inv(u32),
    /// A constant. It reads no wire.
    Eq(bool),
    /// A copy of a wire.
    Eqw(u32),
}

impl Operation {
    /// Whether the operation is AND.
    pub fn is_and(self) -> bool
        ensures { result ≡ is_and self }
    {
        matches!(self, Operation::And(_, _))
    }

    /// The wire that the operation reads first, if it reads one.
    #[inline]
    pub fn first_wire(self) -> Option<u32>
        ensures { result ≡ first_wire self }
    {
        match self {
            Operation::Xor(a, _) => Some(a),
            Operation::And(a, _) => Some(a),
            Operation::Inv(a) => Some(a),
            Operation::Eq(_) => None,
            Operation::Eqw(a) => Some(a),
        }
    }

    /// The wire that the operation reads second, if it reads two.
    #[inline]
    pub fn second_wire(self) -> Option<u32>
        ensures { result ≡ second_wire self }
    {
        match self {
            Operation::Xor(_, b) => Some(b),
            Operation::And(_, b) => Some(b),
            _ => None,
        }
    }

    /// Whether the operation reads the wire.
    #[inline]
    pub fn reads(self, wire: u32) -> bool
        ensures { result ≡ reads self wire }
    {
        match self {
            Operation::Xor(a, b) | Operation::And(a, b) => a == wire || b == wire,
            Operation::Inv(a) | Operation::Eqw(a) => a == wire,
            Operation::Eq(_) => false,
        }
    }
}

/// A gate: what it computes, and the wire that it sets.
#[derive(Clone, Copy, PartialEq, Eq, Debug)]
pub struct Gate {
    pub operation: Operation,
    pub set: u32,
}
