//! Tests of garbled files that come in pieces, and of sinks and sources that fail.

ghost use Rattle.std.specs.Prelude.{◌≡◌, ◌≤◌, length, IfOk};

use crate::fixtures::read;
use gc_file::{
    FileFault, Garbled, GarbledReader, InSource, MemSource, OutSink, Sink, Source, TakeFault,
    Version, WriteFault, read_garbled, read_garbled_from,
};
use gc_fixtures::circuits::AND;
use gc_fixtures::compare::equal;
use gc_fixtures::files::{Written, and_file, write};
use std::alloc::Global;
use std::io::{self, ErrorKind, Read, Write};
use std::test::Fail;

/// Whether both hold the same.
fn same(one: &Garbled, other: &Garbled) -> bool {
    one.version() == other.version()
        && one.digest() == other.digest()
        && one.rows() == other.rows()
        && one.decode_bits() == other.decode_bits()
        && one.entries() == other.entries()
}

/// Reads a file that is cut in two at this place.
fn read_in_two(alloc: Global, file: &[u8], place: usize) -> Result<Garbled, FileFault>
    requires { place ≤ length file.now }
{
    let (first, rest) = file.split_at(place);
    let mut reader = GarbledReader::new(alloc);
    reader.feed(first)?;
    reader.feed(rest)?;
    reader.end()
}

/// Reads a file byte by byte.
fn read_by_bytes(alloc: Global, file: &[u8]) -> Result<Garbled, FileFault> {
    let mut reader = GarbledReader::new(alloc);
    for byte in file {
        reader.feed(&[*byte])?;
    }
    reader.end()
}

/// The same file is read byte by byte, in two pieces wherever it is cut, and in one.
#[test]
fn of_a_file(rt: HostRuntime) -> Result<(), Fail> {
    let alloc = rt.alloc();
    for version in [Version::One, Version::Two] {
        let file = and_file(alloc, version)?;
        let whole = read_garbled(alloc, &file)?;
        equal(same(&read_by_bytes(alloc, &file)?, &whole), true)?;
        for place in 0..=file.len() {
            let found = same(&read_in_two(alloc, &file, place)?, &whole);
            equal((place, found), (place, true))?;
        }
    }
    Ok(())
}

/// Whether the first `limit` bytes of the file are written, and a fault says so where they aren't all.
fn is_cut(written: &Written, file: &[u8], limit: usize) -> bool {
    let wanted = if limit < file.len() {
        Err(WriteFault { sent: limit as u64 })
    } else {
        Ok(file.len() as u64)
    };
    let bytes = written.bytes.as_slice();
    written.answer == wanted && bytes.len() == limit && file.starts_with(bytes)
}

/// A sink that fails after some bytes of a file has just these. A source that fails, after its last byte too, gives no
/// file.
#[test]
fn sinks_and_sources_that_fail(rt: HostRuntime) -> Result<(), Fail> {
    let alloc = rt.alloc();
    let circuit = read(alloc, AND)?;
    for version in [Version::One, Version::Two] {
        let file = and_file(alloc, version)?;
        for limit in 0..=file.len() {
            let written = write(alloc, &circuit, version, Some(limit))?;
            equal((limit, is_cut(&written, &file, limit)), (limit, true))?;
            let mut source = MemSource::new(&file, Some(limit));
            let fault = read_garbled_from(alloc, &mut source).err();
            equal(fault, Some(TakeFault::ReadFault { got: limit as u64 }))?;
        }
    }
    Ok(())
}

/// A reader and writer whose first calls fail for this reason.
#[derive(Drop)]
struct FailsFirst {
    reason: ErrorKind,
    failures: u32,
}

impl FailsFirst {
    /// Gives or takes this many bytes, unless it fails.
    fn call(&mut self, count: usize) -> io::Result<usize>
        ensures { IfOk result (λ n. n ≡ count) }
    {
        if self.failures == 0 {
            return Ok(count);
        }
        self.failures -= 1;
        Err(self.reason.into())
    }
}

impl Read for FailsFirst {
    fn read(&mut self, buf: &mut [u8]) -> io::Result<usize> {
        self.call(buf.len())
    }
}

impl Write for FailsFirst {
    fn write(&mut self, buf: &[u8]) -> io::Result<usize> {
        self.call(buf.len())
    }

    fn flush(&mut self) -> io::Result<()> {
        Ok(())
    }
}

/// How many bytes a sink takes whose writer fails first, and a source gives whose reader does.
fn put_and_get(reason: ErrorKind, failures: u32) -> [Option<usize>; 2] {
    let mut sink = OutSink::new(FailsFirst { reason, failures });
    let mut source = InSource::new(FailsFirst { reason, failures });
    [sink.put(&[0; 6]).ok(), source.get(&mut [0; 6]).ok()]
}

/// A call that is interrupted hundreds of times is tried again; one that fails once for another reason is not.
#[test]
fn interruptions(_rt: HostRuntime) -> Result<(), Fail> {
    equal(put_and_get(ErrorKind::Interrupted, 500), [Some(6); 2])?;
    equal(put_and_get(ErrorKind::BrokenPipe, 1), [None; 2])
}
