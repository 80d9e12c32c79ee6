//! Files on their way to a sink.

ghost use Rattle.std.specs.Prelude.{◌≡◌, ◌<◌, ◌≤◌, ◌++◌, ℕ, List, [], Option, length, take, OnOk, IfErr, MatchResult, codes};
ghost use Rattle.std.specs.Io.KnownBytes.{Appends};
ghost use Rattle.gc_lanes.specs.Hasher.{HoldsMessage};
ghost use Rattle.sha2.specs.Sha256.{sha256};
ghost use Rattle.gc_file.specs.Counted.{CountsFailure};
ghost use Rattle.gc_file.specs.Writing.{IsUnderWay, Proceeds, Ends, IsAfter};

use crate::sink::Sink;
use arrayvec::ArrayVec;
use gc_lanes::LongSha256;
use sha2::Digest;
use std::error::Error;
use std::{fmt, mem};

/// The most bytes that are sent to a sink at once.
const ROOM: usize = 16_384;

/// The sink failed. It has taken the first `sent` bytes of the file, and no others.
#[derive(Clone, Copy, Debug, PartialEq, Eq)]
pub struct WriteFault {
    pub sent: u64,
}

impl WriteFault {
    /// The number of the fault, 37.
    pub fn code(self) -> u32
        ensures { result ≡ 37 }
    {
        37
    }

    /// The name of the fault, as users see it.
    pub fn name(self) -> &'static str
        ensures { result.now ≡ codes "WriteFault" }
    {
        "WriteFault"
    }
}

/// Writes the name, and how many bytes the sink took.
impl fmt::Display for WriteFault {
    ghost use Rattle.std.specs.Prelude.{Some, ◌++◌, codes};
    ghost use Rattle.std.specs.Fmt.{decimal};

    ghost output = { λ fault.
        Some (codes "WriteFault after " ++ decimal fault.sent ++ codes " bytes") };

    fn fmt<W: fmt::Write>(&self, f: &mut fmt::Formatter<W>) -> fmt::Result {
        let sent = self.sent;
        write!(f, "WriteFault after {sent} bytes")
    }
}

impl Error for WriteFault {}

/// Sees the bytes of a file as they go to the sink.
pub(crate) trait Observer: Drop {
    // These are the bytes that it has seen.
    ghost saw: { Self → List ℕ → Type 0 };

    /// Sees the piece after the bytes so far.
    fn see(&mut self, piece: &[u8])
        ensures { (bytes : List ℕ) → saw self.old bytes → saw self.new (bytes ++ piece.now) };
}

/// Digests the bytes for the trailer of a garbled file.
impl Observer for LongSha256 {
    ghost saw = { λ s bytes. HoldsMessage s bytes };

    fn see(&mut self, piece: &[u8]) {
        self.update(piece);
    }
}

/// Ignores the bytes, where a file has no trailer.
#[derive(Drop)]
pub(crate) struct Unobserved;

impl Observer for Unobserved {
    ghost use Rattle.std.specs.Prelude.{⊤};

    ghost saw = { λ _ _. ⊤ };

    fn see(&mut self, _piece: &[u8]) {}
}

/// A file on its way to a sink. Its bytes are buffered, and sent when the buffer is full.
#[derive(Drop)]
pub(crate) struct FileWriter<O> {
    observer: O,
    held: ArrayVec<u8, ROOM>,
    // Stops at the last number, which no file reaches.
    sent: u64,
}

impl<O: Observer> FileWriter<O> {
    /// A file of which nothing is written yet.
    pub(crate) fn new(observer: O) -> FileWriter<O>
        requires { O.saw observer [] }
        ensures { (now : Option (List ℕ)) → IsUnderWay O.saw result now now [] }
    {
        FileWriter {
            observer,
            held: ArrayVec::new(),
            sent: 0,
        }
    }

    /// Writes these bytes of the file.
    pub(crate) fn write<S: Sink>(&mut self, sink: &mut S, bytes: &[u8]) -> Result<(), WriteFault>
        requires { length bytes.now ≤ ROOM }
        ensures bytes { Proceeds O.saw self.old self.new
            (S.taken sink.old) (S.taken sink.new) result bytes.now }
        ensures counted { CountsFailure result (S.failures sink.old) (S.failures sink.new) }
    {
        if self.held.remaining_capacity() < bytes.len() {
            self.send(sink)?;
        }
        self.held.try_extend_from_slice(bytes).unwrap();
        Ok(())
    }

    /// Ends the file, and returns how many bytes it has.
    pub(crate) fn end<S: Sink>(&mut self, sink: &mut S) -> Result<u64, WriteFault>
        ensures bytes { Ends O.saw self.old
            (S.taken sink.old) (S.taken sink.new) result (λ _. []) }
        ensures counted { CountsFailure result (S.failures sink.old) (S.failures sink.new) }
    {
        self.send(sink)?;
        Ok(self.sent)
    }

    /// Sends what is held to the sink.
    fn send<S: Sink>(&mut self, sink: &mut S) -> Result<(), WriteFault>
        ensures bytes { Proceeds O.saw self.old self.new
            (S.taken sink.old) (S.taken sink.new) result [] }
        ensures empty { OnOk result (self.new.held.items ≡ []) }
        ensures counted { CountsFailure result (S.failures sink.old) (S.failures sink.new) }
    {
        self.observer.see(self.held.as_slice());
        self.sent = put_after(sink, self.sent, self.held.as_slice())?;
        self.held.clear();
        Ok(())
    }
}

impl FileWriter<LongSha256> {
    /// Ends a garbled file with its trailer, the digest of the bytes before it, and returns how many bytes it has.
    pub(crate) fn end_with_digest<S: Sink>(&mut self, sink: &mut S) -> Result<u64, WriteFault>
        ensures bytes { Ends HoldsMessage self.old
            (S.taken sink.old) (S.taken sink.new) result sha256 }
        ensures counted { CountsFailure result (S.failures sink.old) (S.failures sink.new) }
    {
        self.send(sink)?;
        let trailer = mem::replace(&mut self.observer, LongSha256::new()).finalize();
        put_after(sink, self.sent, &trailer)
    }
}

/// Sends the whole piece to the sink, which has taken `sent` bytes of a file. Returns how many it has taken then.
fn put_after<S: Sink>(sink: &mut S, sent: u64, piece: &[u8]) -> Result<u64, WriteFault>
    ensures bytes { IsAfter sent (S.taken sink.old) (S.taken sink.new) piece.now result }
    ensures counted { CountsFailure result (S.failures sink.old) (S.failures sink.new) }
{
    match put_all(sink, piece) {
        Ok(()) => Ok(sent.saturating_add(piece.len() as u64)),
        Err(taken) => Err(WriteFault {
            sent: sent.saturating_add(taken.sent),
        }),
    }
}

/// Sends the whole piece to the sink. `sent` in the fault is the number of its bytes that were taken.
fn put_all<S: Sink>(sink: &mut S, piece: &[u8]) -> Result<(), WriteFault>
    ensures bytes { MatchResult result
        (λ _. Appends (S.taken sink.old) (S.taken sink.new) piece.now)
        (λ fault. Appends (S.taken sink.old) (S.taken sink.new) (take fault.sent piece.now)) }
    ensures sent { IfErr result (λ fault. fault.sent < length piece.now) }
    ensures counted { CountsFailure result (S.failures sink.old) (S.failures sink.new) }
{
    let mut done = 0;
    while done < piece.len() {
        match sink.put(&piece[done..]) {
            Ok(n) => done += n,
            Err(_) => return Err(WriteFault { sent: done as u64 }),
        }
    }
    Ok(())
}
