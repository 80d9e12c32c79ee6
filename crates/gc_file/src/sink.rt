//! What takes the bytes of a file.

ghost use Rattle.std.specs.Prelude.{◌≡◌, ◌≢◌, ◌<◌, ◌≤◌, ℕ, List, Option, length, IfOk, IfErr, IsOk, OnErr, Some, None, []};
ghost use Rattle.std.specs.IoError.{error_kind};
ghost use Rattle.std.specs.Io.KnownBytes.{WriteAppends};
ghost use Rattle.gc_file.specs.Counted.{CountsFailure};
ghost use Rattle.gc_file.specs.MemSink.{fitting};

use crate::failures::FailureCount;
use std::alloc::{Allocator, Global};
use std::error::Error;
use std::fmt;
use std::io::{self, ErrorKind, Write};
use std::marker::Model;

/// A sink took nothing of a piece, and has counted it as a failure.
#[derive(Clone, Copy, Debug, PartialEq, Eq)]
pub struct SinkFault;

impl fmt::Display for SinkFault {
    ghost use Rattle.std.specs.Prelude.{Some, codes};

    ghost output = { λ _. Some (codes "the sink failed") };

    fn fmt<W: fmt::Write>(&self, f: &mut fmt::Formatter<W>) -> fmt::Result {
        f.write_str("the sink failed")
    }
}

impl Error for SinkFault {}

/// Takes bytes piece by piece.
pub trait Sink {
    // The bytes taken so far, where they are known. `None` claims nothing.
    ghost taken: { Self → Option (List ℕ) };

    // How often it has failed so far.
    ghost failures: { Self → ℕ };

    /// Takes a beginning of the piece and returns its length, which is at least one byte where the piece has one.
    /// Otherwise it fails, and takes nothing.
    fn put(&mut self, piece: &[u8]) -> Result<usize, SinkFault>
        ensures bound { IfOk result (λ n. n ≤ length piece.now) }
        ensures some { 0 < length piece.now → IfOk result (λ n. 0 < n) }
        ensures bytes { WriteAppends (taken self.old) (taken self.new) result piece.now }
        ensures counted { CountsFailure result (failures self.old) (failures self.new) };
}

/// A sink that keeps the bytes in memory. With a limit it fails once it holds that many bytes.
#[derive(Drop)]
pub struct MemSink<A: Allocator = Global> {
    bytes: Vec<u8, A>,
    limit: Option<usize>,
    failures: FailureCount,
}

impl<A: Allocator> Model for MemSink<A> {
    ghost use Rattle.gc_file.specs.MemSink.{MemSinkState};

    ghost Value = { MemSinkState };

    ghost view = { λ s. record { bytes = s.bytes.items; limit = s.limit; failures = s.failures } };
}

impl<A: Allocator> MemSink<A> {
    /// A sink that holds no byte. It doesn't allocate.
    pub fn new(alloc: A, limit: Option<usize>) -> MemSink<A>
        ensures { result ≡ record { bytes = []; limit = limit; failures = 0 } }
    {
        MemSink {
            bytes: Vec::new(alloc),
            limit,
            failures: FailureCount::new(),
        }
    }

    /// The bytes taken so far.
    pub fn bytes(&self) -> &[u8]
        ensures { result.now ≡ self.now.bytes }
    {
        &self.bytes
    }

    /// The bytes taken, moved out.
    pub fn into_bytes(self) -> Vec<u8, A>
        ensures { result.items ≡ self.bytes }
    {
        self.bytes
    }
}

impl<A: Allocator> Sink for MemSink<A> {
    ghost use Rattle.std.specs.Prelude.{◌≡◌, ◌<◌, ◌≤◌, length, IfOk, IsOk, Some, []};
    ghost use Rattle.std.specs.Io.KnownBytes.{WriteAppends};
    ghost use Rattle.gc_file.specs.Counted.{CountsFailure};
    ghost use Rattle.gc_file.specs.MemSink.{fitting};

    ghost taken = { λ s. Some s.bytes };

    ghost failures = { λ s. s.failures };

    /// Takes as much of the piece as still fits under the limit. It fails where that is nothing of a piece with
    /// bytes, or where memory for it is refused; the limit and the bytes then stay as they are.
    fn put(&mut self, piece: &[u8]) -> Result<usize, SinkFault>
        ensures bound { IfOk result (λ n. n ≤ length piece.now) }
        ensures some { 0 < length piece.now → IfOk result (λ n. 0 < n) }
        ensures bytes { WriteAppends (Some self.old.bytes) (Some self.new.bytes) result piece.now }
        ensures counted { CountsFailure result self.old.failures self.new.failures }
        ensures fitting { IfOk result (λ n.
            n ≡ fitting self.old.limit (length self.old.bytes) (length piece.now)) }
        ensures limit { self.new.limit ≡ self.old.limit }
        ensures empty { piece.now ≡ [] → IsOk result }
    {
        if piece.is_empty() {
            return Ok(0);
        }
        let n = fitting(self.limit, self.bytes.len(), piece.len());
        if n > 0 && self.bytes.extend_from_slice(&piece[..n]).is_ok() {
            return Ok(n);
        }
        self.failures.add_one();
        Err(SinkFault)
    }
}

/// How many of `count` bytes still fit under the limit, where `held` bytes are held.
fn fitting(limit: Option<usize>, held: usize, count: usize) -> usize
    ensures value { result ≡ fitting limit held count }
    ensures bound { result ≤ count }
{
    match limit {
        Some(limit) => count.min(limit.saturating_sub(held)),
        None => count,
    }
}

/// A sink over any writer.
#[derive(Drop)]
pub struct OutSink<W> {
    writer: W,
    failures: FailureCount,
}

impl<W> Model for OutSink<W> {
    ghost use Rattle.gc_file.specs.OutSink.{Outlet};

    ghost Value = { Outlet W };

    ghost view = { λ s. record { writer = s.writer; failures = s.failures } };
}

impl<W: Write> OutSink<W> {
    /// A sink over the writer, which has not failed yet.
    pub fn new(writer: W) -> OutSink<W>
        ensures { result ≡ record { writer = writer; failures = 0 } }
    {
        OutSink {
            writer,
            failures: FailureCount::new(),
        }
    }

    /// The writer, given back. What it buffers is not flushed.
    pub fn into_inner(self) -> W
        ensures { result ≡ self.writer }
    {
        self.writer
    }
}

impl<W: Write> Sink for OutSink<W> {
    ghost taken = { λ s. W.contents s.writer };

    ghost failures = { λ s. s.failures };

    fn put(&mut self, piece: &[u8]) -> Result<usize, SinkFault> {
        match write_some(&mut self.writer, piece) {
            Ok(n) => Ok(n),
            Err(_) => {
                self.failures.add_one();
                Err(SinkFault)
            }
        }
    }
}

/// Writes a beginning of the piece, as [`write_once`] does, and tries again where it is interrupted. So no interruption
/// is ever its result.
fn write_some<W: Write>(writer: &mut W, piece: &[u8]) -> io::Result<usize>
    ensures bound { IfOk result (λ n. n ≤ length piece.now) }
    ensures some { 0 < length piece.now → IfOk result (λ n. 0 < n) }
    ensures bytes { WriteAppends (W.contents writer.old) (W.contents writer.new) result piece.now }
    ensures retried { IfErr result (λ e. error_kind e ≢ ErrorKind.Interrupted) }
{
    for _ in 0..u64::MAX {
        match write_once(writer, piece) {
            Err(e) if e.kind() == ErrorKind::Interrupted => {}
            outcome => return outcome,
        }
    }
    Err(ErrorKind::TimedOut.into())
}

/// Writes a beginning of the piece once: at least one byte where the piece has one, or nothing at a failure.
fn write_once<W: Write>(writer: &mut W, piece: &[u8]) -> io::Result<usize>
    ensures bound { IfOk result (λ n. n ≤ length piece.now) }
    ensures some { 0 < length piece.now → IfOk result (λ n. 0 < n) }
    ensures bytes { WriteAppends (W.contents writer.old) (W.contents writer.new) result piece.now }
{
    let n = writer.write(piece)?;
    if n == 0 && !piece.is_empty() {
        return Err(ErrorKind::WriteZero.into());
    }
    Ok(n)
}
