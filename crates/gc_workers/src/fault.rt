//! Why a board can't be opened, or closed.

ghost use Rattle.std.specs.Prelude.{◌≡◌, codes};
ghost use Rattle.gc_netlist.specs.Names.{fault_name};
ghost use Rattle.gc_workers.specs.Fault.{code_of};

use gc_netlist::fault_name;
use std::alloc::{AllocError, AllocFailed};
use std::error::Error;
use std::fmt;

/// Why a board can't be opened. Each comes only where an allocation was refused.
#[derive(Clone, Copy, Debug, PartialEq, Eq)]
pub enum OpenFault {
    /// Memory ran out.
    Memory,
    /// There was no memory for the table of the board's words.
    NoTable,
}

impl OpenFault {
    /// The number of the fault: 46 or 49.
    pub fn code(self) -> u32
        ensures { result ≡ code_of self }
    {
        match self {
            OpenFault::Memory => 46,
            OpenFault::NoTable => 49,
        }
    }

    /// The name of the fault, as users see it.
    pub fn name(self) -> &'static str
        ensures { result.now ≡ fault_name (code_of self) }
    {
        fault_name(self.code())
    }
}

/// Writes the name.
impl fmt::Display for OpenFault {
    ghost use Rattle.std.specs.Prelude.{Some};

    ghost output = { λ fault. Some (fault_name (code_of fault)) };

    fn fmt<W: fmt::Write>(&self, f: &mut fmt::Formatter<W>) -> fmt::Result {
        f.write_str(self.name())
    }
}

impl Error for OpenFault {}

impl From<AllocError> for OpenFault {
    ghost use Rattle.std.specs.Prelude.{◌≡◌};
    ghost use Rattle.gc_workers.specs.declared.fault.OpenFault.TheVariants as faults;

    ghost from_gives = { λ _ e. e ≡ faults.Memory };

    fn from(_e: AllocError) -> OpenFault {
        OpenFault::Memory
    }
}

impl<T: Drop> From<AllocFailed<T>> for OpenFault {
    ghost use Rattle.std.specs.Prelude.{◌≡◌};
    ghost use Rattle.gc_workers.specs.declared.fault.OpenFault.TheVariants as faults;

    ghost from_gives = { λ _ e. e ≡ faults.Memory };

    fn from(_e: AllocFailed<T>) -> OpenFault {
        OpenFault::Memory
    }
}

/// Why a board, or banks, can't be closed: a seat is missing, or inside a round. They come back with all seats that
/// were passed.
#[derive(Drop)]
pub struct CloseRefused<B, S> {
    /// What was to be closed.
    pub board: B,
    pub seats: S,
}

impl<B, S> CloseRefused<B, S> {
    /// The number of the refusal: 47.
    pub fn code(&self) -> u32
        ensures { result ≡ 47 }
    {
        47
    }

    /// The name of the refusal, as users see it.
    pub fn name(&self) -> &str
        ensures { result.now ≡ codes "SeatMissing" }
    {
        "SeatMissing"
    }
}

/// Writes the name, and neither the board nor the seats.
impl<B, S> fmt::Debug for CloseRefused<B, S> {
    ghost use Rattle.std.specs.Prelude.{Some};

    ghost debug_output = { λ _. Some (codes "SeatMissing") };

    fn fmt<W: fmt::Write>(&self, f: &mut fmt::Formatter<W>) -> fmt::Result {
        f.write_str(self.name())
    }
}

/// Writes the name.
impl<B, S> fmt::Display for CloseRefused<B, S> {
    ghost use Rattle.std.specs.Prelude.{Some};

    ghost output = { λ _. Some (codes "SeatMissing") };

    fn fmt<W: fmt::Write>(&self, f: &mut fmt::Formatter<W>) -> fmt::Result {
        f.write_str(self.name())
    }
}

impl<B: Drop, S: Drop> Error for CloseRefused<B, S> {}
