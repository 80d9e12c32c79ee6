ghost use Rattle.std.specs.Prelude.{◌≡◌};
ghost use Rattle.gc_netlist.specs.Fault.{code_of};
ghost use Rattle.gc_netlist.specs.Names.{fault_name};

use crate::names::fault_name;
use std::alloc::{AllocError, AllocFailed};
use std::error::Error;
use std::fmt;

/// Why a text is no circuit: the first fault that reading it from left to right meets. `Memory` replaces a later fault,
/// or the circuit, only where an allocation was refused.
#[derive(Clone, Copy, Debug, PartialEq, Eq)]
pub enum ReadFault {
    /// A token is due where the text has ended.
    Truncated,
    /// A number is due, and the token isn't all digits or is above 4,294,967,295.
    BadNumber,
    /// There are too many gates, wires or values.
    TooLarge,
    /// A gate's counts are neither `2 1` nor `1 1`, or are not those of its operation.
    BadShape,
    /// No operation has this name.
    UnknownOperation,
    /// The constant of an EQ gate is neither 0 nor 1.
    BadConstant,
    /// A gate names a wire that the circuit doesn't have.
    NoSuchWire,
    /// A gate reads a wire that is not set before it.
    Unset,
    /// A gate sets an input wire, or a wire that a gate before it sets.
    SetTwice,
    /// An output wire is not set.
    OutputUnset,
    /// A token is left after the last gate.
    TrailingTokens,
    /// The widths of the input values, or of the output values, are together more than the wires.
    WidthsExceedWires,
    /// Memory ran out.
    Memory,
}

impl ReadFault {
    /// The number of the fault, from 1 to 13.
    pub fn code(self) -> u32
        ensures { result ≡ code_of self }
    {
        match self {
            ReadFault::Truncated => 1,
            ReadFault::BadNumber => 2,
            ReadFault::TooLarge => 3,
            ReadFault::BadShape => 4,
            ReadFault::UnknownOperation => 5,
            ReadFault::BadConstant => 6,
            ReadFault::NoSuchWire => 7,
            ReadFault::Unset => 8,
            ReadFault::SetTwice => 9,
            ReadFault::OutputUnset => 10,
            ReadFault::TrailingTokens => 11,
            ReadFault::WidthsExceedWires => 12,
            ReadFault::Memory => 13,
        }
    }

    /// The name of the fault, as users see it.
    pub fn name(self) -> &'static str
        ensures { result.now ≡ fault_name (code_of self) }
    {
        fault_name(self.code())
    }
}

/// Writes the name.
impl fmt::Display for ReadFault {
    ghost use Rattle.std.specs.Prelude.{Some};

    ghost output = { λ fault. Some (fault_name (code_of fault)) };

    fn fmt<W: fmt::Write>(&self, f: &mut fmt::Formatter<W>) -> fmt::Result {
        f.write_str(self.name())
    }
}

impl Error for ReadFault {}

impl From<AllocError> for ReadFault {
    ghost use Rattle.std.specs.Prelude.{◌≡◌};
    ghost use Rattle.gc_netlist.specs.declared.fault.ReadFault.TheVariants as faults;

    ghost from_gives = { λ _ e. e ≡ faults.Memory };

    fn from(_e: AllocError) -> ReadFault {
        ReadFault::Memory
    }
}

impl<T: Drop> From<AllocFailed<T>> for ReadFault {
    ghost use Rattle.std.specs.Prelude.{◌≡◌};
    ghost use Rattle.gc_netlist.specs.declared.fault.ReadFault.TheVariants as faults;

    ghost from_gives = { λ _ e. e ≡ faults.Memory };

    fn from(_e: AllocFailed<T>) -> ReadFault {
        ReadFault::Memory
    }
}
