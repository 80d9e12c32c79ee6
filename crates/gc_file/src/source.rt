//! What gives the bytes of a file.

ghost use Rattle.std.specs.Prelude.{◌≡◌, ◌≢◌, ◌≤◌, ℕ, List, Option, IfSome, IfErr};
ghost use Rattle.std.specs.IoError.{error_kind};
ghost use Rattle.std.specs.Io.{ReadsAtMost};
ghost use Rattle.std.specs.Io.KnownBytes.{ReadConsumes};
ghost use Rattle.gc_file.specs.Counted.{CountsFailure};
ghost use Rattle.gc_file.specs.MemSource.{given};

use crate::failures::FailureCount;
use std::error::Error;
use std::fmt;
use std::io::{self, ErrorKind, Read};
use std::marker::Model;

/// A source gave no byte, and has counted it as a failure.
#[derive(Clone, Copy, Debug, PartialEq, Eq)]
pub struct SourceFault;

impl fmt::Display for SourceFault {
    ghost use Rattle.std.specs.Prelude.{Some, codes};

    ghost output = { λ _. Some (codes "the source failed") };

    fn fmt<W: fmt::Write>(&self, f: &mut fmt::Formatter<W>) -> fmt::Result {
        f.write_str("the source failed")
    }
}

impl Error for SourceFault {}

/// Gives bytes piece by piece.
pub trait Source {
    // The bytes that are left, where they are known. `None` claims nothing.
    ghost left: { Self → Option (List ℕ) };

    // How often it has failed so far.
    ghost failures: { Self → ℕ };

    /// Puts a beginning of what is left into the room and returns its length, which is 0 only at the end or where there
    /// is no room. Otherwise it fails, and gives nothing.
    fn get(&mut self, room: &mut [u8]) -> Result<usize, SourceFault>
        ensures bound { ReadsAtMost result room.new }
        ensures bytes { ReadConsumes (left self.old) (left self.new) result room.new }
        ensures counted { CountsFailure result (failures self.old) (failures self.new) };
}

/// A source over bytes in memory. With a limit it fails once it has given that many.
#[derive(Drop)]
pub struct MemSource<'b> {
    left: &'b [u8],
    limit: Option<usize>,
    failures: FailureCount,
}

impl<'b> Model for MemSource<'b> {
    ghost use Rattle.gc_file.specs.MemSource.{MemSourceState};

    ghost Value = { MemSourceState };

    ghost view = { λ s. record { left = s.left.now; limit = s.limit; failures = s.failures } };
}

impl<'b> MemSource<'b> {
    /// A source of these bytes, which has not failed yet.
    pub fn new(bytes: &'b [u8], limit: Option<usize>) -> MemSource<'b>
        ensures { result ≡ record { left = bytes.now; limit = limit; failures = 0 } }
    {
        MemSource {
            left: bytes,
            limit,
            failures: FailureCount::new(),
        }
    }
}

impl Source for MemSource<'_> {
    ghost use Rattle.std.specs.Prelude.{◌≡◌, ◌↔◌, length, IfOk, IsErr, MatchResult, Some};
    ghost use Rattle.std.specs.Io.{ReadsAtMost};
    ghost use Rattle.std.specs.Io.KnownBytes.{ReadConsumes};
    ghost use Rattle.gc_file.specs.Counted.{CountsFailure};
    ghost use Rattle.gc_file.specs.MemSource.{given, limit_after};

    ghost left = { λ s. Some s.left };

    ghost failures = { λ s. s.failures };

    /// Gives as much as there is room for and the limit allows. It fails exactly where the limit allows no more, and
    /// then keeps that limit, so that it fails from then on.
    fn get(&mut self, room: &mut [u8]) -> Result<usize, SourceFault>
        ensures bound { ReadsAtMost result room.new }
        ensures bytes { ReadConsumes (Some self.old.left) (Some self.new.left) result room.new }
        ensures counted { CountsFailure result self.old.failures self.new.failures }
        ensures given { IfOk result (λ n.
            n ≡ given self.old.limit (length self.old.left) (length room.new)) }
        ensures limit { MatchResult result
            (λ n. self.new.limit ≡ limit_after self.old.limit n)
            (λ _. self.new.limit ≡ self.old.limit) }
        ensures fails { IsErr result ↔ (self.old.limit ≡ Some 0) }
    {
        if self.limit == Some(0) {
            self.failures.add_one();
            return Err(SourceFault);
        }
        let n = given(self.limit, self.left.len(), room.len());
        let (first, rest) = self.left.split_at(n);
        room[..n].copy_from_slice(first);
        self.left = rest;
        self.limit = self.limit.map(|limit| limit - n);
        Ok(n)
    }
}

/// How many bytes are given under the limit, where `left` bytes are left and there is room for `room`.
fn given(limit: Option<usize>, left: usize, room: usize) -> usize
    ensures value { result ≡ given limit left room }
    ensures bound { (result ≤ left) × (result ≤ room) }
    ensures limit { IfSome limit (λ l. result ≤ l) }
{
    let most = left.min(room);
    match limit {
        Some(limit) => most.min(limit),
        None => most,
    }
}

/// A source over any reader.
#[derive(Drop)]
pub struct InSource<R> {
    reader: R,
    failures: FailureCount,
}

impl<R> Model for InSource<R> {
    ghost use Rattle.gc_file.specs.InSource.{Inlet};

    ghost Value = { Inlet R };

    ghost view = { λ s. record { reader = s.reader; failures = s.failures } };
}

impl<R: Read> InSource<R> {
    /// A source over the reader, which has not failed yet.
    pub fn new(reader: R) -> InSource<R>
        ensures { result ≡ record { reader = reader; failures = 0 } }
    {
        InSource {
            reader,
            failures: FailureCount::new(),
        }
    }

    /// The reader, given back.
    pub fn into_inner(self) -> R
        ensures { result ≡ self.reader }
    {
        self.reader
    }
}

impl<R: Read> Source for InSource<R> {
    ghost left = { λ s. R.remaining s.reader };

    ghost failures = { λ s. s.failures };

    fn get(&mut self, room: &mut [u8]) -> Result<usize, SourceFault> {
        match read_some(&mut self.reader, room) {
            Ok(n) => Ok(n),
            Err(_) => {
                self.failures.add_one();
                Err(SourceFault)
            }
        }
    }
}

/// Reads once, and again where it is interrupted. So no interruption is ever its result.
fn read_some<R: Read>(reader: &mut R, room: &mut [u8]) -> io::Result<usize>
    ensures bound { ReadsAtMost result room.new }
    ensures bytes { ReadConsumes (R.remaining reader.old) (R.remaining reader.new) result room.new }
    ensures retried { IfErr result (λ e. error_kind e ≢ ErrorKind.Interrupted) }
{
    for _ in 0..u64::MAX {
        match reader.read(room) {
            Err(e) if e.kind() == ErrorKind::Interrupted => {}
            outcome => return outcome,
        }
    }
    Err(ErrorKind::TimedOut.into())
}
