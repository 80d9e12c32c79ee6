//! Reading garbled files.

ghost use Rattle.std.specs.Prelude.{◌≡◌, ◌≢◌, ◌<◌, ◌++◌, [], length, IfOk, IfErr, IfSome, Ok};
ghost use Rattle.gc_file.specs.FileFault.{LastingFault};
ghost use Rattle.gc_file.specs.State.{fed_of, IsState, IsAdvanced};
ghost use Rattle.gc_file.specs.Reading.{IsRead, IsFed, IsEnded, before_trailer};
ghost use Rattle.sha2.specs.Sha256.{sha256};

use crate::body::Body;
use crate::fault::FileFault;
use crate::garbled::Garbled;
use crate::header::check_header;
use crate::piece::{append, cut};
use crate::sizes::{HEADER, TRAILER};
use arrayvec::ArrayVec;
use std::alloc::{Allocator, Global};
use std::marker::Model;
use std::mem;

/// How far a reader has come.
#[derive(Drop)]
enum State<A: Allocator> {
    /// The header isn't whole.
    Header(ArrayVec<u8, HEADER>),
    /// The header is whole.
    Body(Body<A>),
    /// A fault was met.
    Failed(FileFault),
}

/// Reads a garbled file from pieces of any size. Until the trailer is found right nothing of the file is given out. A
/// count in the header doesn't allocate by itself: room is made as the bytes come.
#[derive(Drop)]
pub struct GarbledReader<A: Allocator = Global> {
    alloc: A,
    state: State<A>,
}

impl<A: Allocator> Model for GarbledReader<A> {
    ghost use Rattle.gc_file.specs.Reading.{Fed};
    ghost use Rattle.gc_file.specs.State.{fed_of, IsState};

    ghost Value = { Fed };

    ghost view = { λ r. fed_of r.state };

    ghost invariant = { λ r. IsState r.state };
}

/// A header with these bytes more, and after it what follows, or the fault that comes with them. A digest that is given
/// is that of all bytes but the last 32: where the bytes are a whole file, they aren't digested.
fn advance_header<A: Allocator + Copy>(
    alloc: A,
    mut header: ArrayVec<u8, HEADER>,
    piece: &[u8],
    digest: Option<&[u8; 32]>,
) -> Result<State<A>, FileFault>
    requires short { length header.items < 48 }
    requires digest { IfSome digest (λ given.
        given.now ≡ sha256 (before_trailer (header.items ++ piece.now))) }
    ensures ok { IfOk result (λ state.
        (fed_of state ≡ Ok (header.items ++ piece.now)) × IsState state) }
    ensures err { IfErr result (λ e.
        e ≢ FileFault.Memory → LastingFault (header.items ++ piece.now) e) }
{
    let (front, rest) = cut(piece, HEADER - header.len());
    append(&mut header, front);
    check_header(header.as_slice())?;
    if header.is_full() {
        Ok(State::Body(Body::new(alloc, header).with(rest, digest)?))
    } else {
        Ok(State::Header(header))
    }
}

/// The state after these bytes more, or the fault that comes with them.
fn advance<A: Allocator + Copy>(
    alloc: A,
    state: State<A>,
    piece: &[u8],
) -> Result<State<A>, FileFault>
    requires { IsState state }
    ensures { IsAdvanced state piece.now result }
{
    match state {
        State::Header(header) => advance_header(alloc, header, piece, None),
        State::Body(body) => Ok(State::Body(body.with(piece, None)?)),
        State::Failed(fault) => Err(fault),
    }
}

impl<A: Allocator + Copy> GarbledReader<A> {
    /// A reader that was fed nothing. It doesn't allocate.
    pub fn new(alloc: A) -> GarbledReader<A>
        ensures { result ≡ Ok [] }
    {
        GarbledReader {
            alloc,
            state: State::Header(ArrayVec::new()),
        }
    }

    /// Takes the next bytes of the file. Returns Ok exactly where all bytes so far are in order as far as they go, and
    /// otherwise their first fault, however they were cut into pieces; `Memory` replaces either only where an
    /// allocation was refused. A fault is returned again from then on.
    pub fn feed(&mut self, piece: &[u8]) -> Result<(), FileFault>
        ensures { IsFed self.old piece.now result self.new }
    {
        let state = mem::replace(&mut self.state, State::Failed(FileFault::Memory));
        match advance(self.alloc, state, piece) {
            Ok(state) => {
                self.state = state;
                Ok(())
            }
            Err(fault) => {
                self.state = State::Failed(fault);
                Err(fault)
            }
        }
    }

    /// The file that the bytes are. If they are none, the result is their first fault; `Memory` replaces the file only
    /// where an allocation was refused.
    pub fn end(self) -> Result<Garbled<A>, FileFault>
        ensures { IsEnded self result }
    {
        let GarbledReader { alloc, state } = self;
        match state {
            State::Header(_) => Err(FileFault::Truncated),
            State::Body(body) => body.end(alloc),
            State::Failed(fault) => Err(fault),
        }
    }
}

/// Reads a garbled file of either version. Returns the file exactly where the bytes are one, and otherwise their first
/// fault; `Memory` replaces the file, or a later fault, only where an allocation was refused.
pub fn read_garbled<A: Allocator + Copy>(alloc: A, bytes: &[u8]) -> Result<Garbled<A>, FileFault>
    ensures { IsRead bytes.now result }
{
    let mut reader = GarbledReader::new(alloc);
    reader.feed(bytes)?;
    reader.end()
}

/// The bytes whose digest the trailer of a garbled file is: all but the last 32.
pub fn before_trailer(bytes: &[u8]) -> &[u8]
    ensures { result.now ≡ before_trailer bytes.now }
{
    &bytes[..bytes.len().saturating_sub(TRAILER)]
}

/// Reads a garbled file, as [`read_garbled`] does, without digesting it. The caller ensures that `digest` is SHA-256
/// (FIPS 180-4) of the bytes that [`before_trailer`] returns.
pub fn read_garbled_by_digest<A: Allocator + Copy>(
    alloc: A,
    bytes: &[u8],
    digest: &[u8; 32],
) -> Result<Garbled<A>, FileFault>
    requires { digest.now ≡ sha256 (before_trailer bytes.now) }
    ensures { IsRead bytes.now result }
{
    let state = advance_header(alloc, ArrayVec::new(), bytes, Some(digest))?;
    GarbledReader { alloc, state }.end()
}
