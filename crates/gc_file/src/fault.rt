//! The faults of files.

ghost use Rattle.std.specs.Prelude.{◌≡◌};
ghost use Rattle.gc_netlist.specs.Names.{fault_name};
ghost use Rattle.gc_file.specs.Fault.{code_of};

use gc_netlist::fault_name;
use std::alloc::{AllocError, AllocFailed};
use std::error::Error;
use std::fmt;

/// Why bytes are no file: the first fault in their order. `Memory` replaces a later fault, or the file, only where an
/// allocation was refused.
#[derive(Clone, Copy, Debug, PartialEq, Eq)]
pub enum FileFault {
    /// The first bytes are not those of the format.
    BadMagic,
    /// The bytes end before the file does.
    Truncated,
    /// Bytes follow after the file.
    Trailing,
    /// A count is above its limit.
    CountTooLarge,
    /// A bit is set in the last decode byte that stands for no output wire.
    SpareBits,
    /// The trailer is not the digest of the bytes before it.
    BadTrailer,
    /// Memory ran out.
    Memory,
}

impl FileFault {
    /// The number of the fault, from 30 to 36.
    pub fn code(self) -> u32
        ensures { result ≡ code_of self }
    {
        match self {
            FileFault::BadMagic => 30,
            FileFault::Truncated => 31,
            FileFault::Trailing => 32,
            FileFault::CountTooLarge => 33,
            FileFault::SpareBits => 34,
            FileFault::BadTrailer => 35,
            FileFault::Memory => 36,
        }
    }

    /// The name of the fault, as users see it.
    pub fn name(self) -> &'static str
        ensures { result.now ≡ fault_name (code_of self) }
    {
        fault_name(self.code())
    }
}

/// Writes the name.
impl fmt::Display for FileFault {
    ghost use Rattle.std.specs.Prelude.{Some};

    ghost output = { λ fault. Some (fault_name (code_of fault)) };

    fn fmt<W: fmt::Write>(&self, f: &mut fmt::Formatter<W>) -> fmt::Result {
        f.write_str(self.name())
    }
}

impl Error for FileFault {}

impl From<AllocError> for FileFault {
    ghost use Rattle.std.specs.Prelude.{◌≡◌};
    ghost use Rattle.gc_file.specs.declared.fault.FileFault.TheVariants as faults;

    ghost from_gives = { λ _ e. e ≡ faults.Memory };

    fn from(_e: AllocError) -> FileFault {
        FileFault::Memory
    }
}

impl<T: Drop> From<AllocFailed<T>> for FileFault {
    ghost use Rattle.std.specs.Prelude.{◌≡◌};
    ghost use Rattle.gc_file.specs.declared.fault.FileFault.TheVariants as faults;

    ghost from_gives = { λ _ e. e ≡ faults.Memory };

    fn from(_e: AllocFailed<T>) -> FileFault {
        FileFault::Memory
    }
}
