use std::alloc::{AllocError, AllocFailed};
use std::error::Error;
use std::fmt;

/// Memory ran out. What was lent to the call is unchanged.
#[derive(Clone, Copy, Debug, PartialEq, Eq)]
pub struct Memory;

/// Writes the name.
impl fmt::Display for Memory {
    ghost use Rattle.std.specs.Prelude.{Some, codes};

    ghost output = { λ _. Some (codes "Memory") };

    fn fmt<W: fmt::Write>(&self, f: &mut fmt::Formatter<W>) -> fmt::Result {
        f.write_str("Memory")
    }
}

impl Error for Memory {}

impl From<AllocError> for Memory {
    fn from(_e: AllocError) -> Memory {
        Memory
    }
}

impl<T: Drop> From<AllocFailed<T>> for Memory {
    fn from(_e: AllocFailed<T>) -> Memory {
        Memory
    }
}
