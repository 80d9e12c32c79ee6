//! Why a store refuses a sealed task.

ghost use Rattle.std.specs.Prelude.{◌≡◌};
ghost use Rattle.gc_netlist.specs.Names.{fault_name};
ghost use Rattle.gc_store.specs.Refusal.{code_of, sealed_of};

use crate::task::Sealed;
use gc_netlist::fault_name;
use std::error::Error;
use std::fmt;

/// Why a store refuses a sealed task, with the sealed task.
#[derive(Clone, Copy, PartialEq, Eq, Debug)]
pub enum Refused {
    /// Its gate isn't claimed, or there is no such gate.
    NotClaimed(Sealed),
    /// It isn't the store's own task for its gate: the gate, the seed or the labels of the wires read are others.
    OtherInputs(Sealed),
}

impl Refused {
    /// The number of the refusal: 20 or 21.
    pub fn code(self) -> u32
        ensures { result ≡ code_of self }
    {
        match self {
            Refused::NotClaimed(_) => 20,
            Refused::OtherInputs(_) => 21,
        }
    }

    /// The name of the refusal.
    pub fn name(self) -> &'static str
        ensures { result.now ≡ fault_name (code_of self) }
    {
        fault_name(self.code())
    }

    /// The sealed task that was refused.
    pub fn sealed(self) -> Sealed
        ensures { result ≡ sealed_of self }
    {
        match self {
            Refused::NotClaimed(sealed) => sealed,
            Refused::OtherInputs(sealed) => sealed,
        }
    }
}

impl fmt::Display for Refused {
    ghost use Rattle.std.specs.Prelude.{Some};

    ghost output = { λ refused. Some (fault_name (code_of refused)) };

    fn fmt<W: fmt::Write>(&self, f: &mut fmt::Formatter<W>) -> fmt::Result {
        f.write_str(self.name())
    }
}

impl Error for Refused {}
