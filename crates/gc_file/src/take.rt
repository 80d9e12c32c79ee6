//! Taking a garbled file from a source.

ghost use Rattle.std.specs.Prelude.{◌≡◌, ℕ, List, Some};
ghost use Rattle.gc_netlist.specs.Names.{fault_name};
ghost use Rattle.gc_file.specs.Taking.{code_of, fault_text, IsTaken, IsAnswerOfAll, CountsReadFault};

use crate::fault::FileFault;
use crate::garbled::Garbled;
use crate::reader::GarbledReader;
use crate::source::Source;
use gc_netlist::fault_name;
use std::alloc::Allocator;
use std::error::Error;
use std::fmt;

/// The most bytes that a source is asked for at once.
const PIECE: usize = 4096;

/// Why a source gave no garbled file.
#[derive(Clone, Copy, Debug, PartialEq, Eq)]
pub enum TakeFault {
    /// The bytes that it gave have this fault.
    File(FileFault),
    /// It failed, after it had given `got` bytes.
    ReadFault { got: u64 },
}

impl TakeFault {
    /// The number of the fault, from 30 to 36, or 38.
    pub fn code(self) -> u32
        ensures { result ≡ code_of self }
    {
        match self {
            TakeFault::File(fault) => fault.code(),
            TakeFault::ReadFault { .. } => 38,
        }
    }

    /// The name of the fault, as users see it.
    pub fn name(self) -> &'static str
        ensures { result.now ≡ fault_name (code_of self) }
    {
        fault_name(self.code())
    }
}

/// Writes the name and, of a source that failed, how many bytes it had given.
impl fmt::Display for TakeFault {
    ghost use Rattle.std.specs.Prelude.{Some};

    ghost output = { λ fault. Some (fault_text fault) };

    fn fmt<W: fmt::Write>(&self, f: &mut fmt::Formatter<W>) -> fmt::Result {
        match self {
            TakeFault::File(fault) => f.write_str(fault.name()),
            TakeFault::ReadFault { got } => write!(f, "ReadFault after {got} bytes"),
        }
    }
}

impl Error for TakeFault {}

/// Reads a garbled file of either version from a source, in pieces of at most 4,096 bytes. If the source doesn't fail,
/// the result is what [`read_garbled`](crate::read_garbled) returns for the bytes that it had left; a fault that no
/// further bytes can mend is returned as soon as it is met. What the source gave stays given, whatever the result.
pub fn read_garbled_from<A: Allocator + Copy, S: Source>(
    alloc: A,
    source: &mut S,
) -> Result<Garbled<A>, TakeFault>
    ensures taken { IsTaken (S.left source.old) (S.left source.new) result }
    ensures all { (bytes : List ℕ) → S.left source.old ≡ Some bytes → IsAnswerOfAll bytes result }
    ensures counted { CountsReadFault result (S.failures source.old) (S.failures source.new) }
{
    let mut reader = GarbledReader::new(alloc);
    let mut room = [0; PIECE];
    prove!(room.len() <= 4_096);
    let mut got = 0;
    loop {
        match source.get(&mut room) {
            Ok(0) => {
                return match reader.end() {
                    Ok(garbled) => Ok(garbled),
                    Err(fault) => Err(TakeFault::File(fault)),
                };
            }
            Ok(n) => {
                got = u64::saturating_add(got, n as u64);
                if let Err(fault) = reader.feed(&room[..n]) {
                    return Err(TakeFault::File(fault));
                }
            }
            Err(_) => return Err(TakeFault::ReadFault { got }),
        }
    }
}
