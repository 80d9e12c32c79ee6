//! The files of the system that the program runs on.

ghost use Rattle.std.specs.Prelude.{◌≡◌, ◌≢◌, ◌↔◌, [], None, IfOk, IfErr, IsErr, IfSome, OnOk};
ghost use Rattle.std.specs.Io.KnownBytes.{IsAtEnd};
ghost use Rattle.std.specs.IoError.{error_kind};
ghost use Rattle.gc_disk.specs.Files.{CountsRead, CountsWrite};

use crate::cause::Cause;
use crate::file_failures::FileFailures;
use crate::file_log::FileLog;
use crate::files::{FileError, Files};
use crate::noting::Noting;
use crate::replacement::{Replacement, open_out};
use crate::reread::Reread;
use gc_file::{InSource, OutSink, Sink, SinkFault};
use std::alloc::Allocator;
use std::io::{self, ErrorKind, Read, Write};
use std::{fs, rt};

/// A sink of a file that the system keeps. Nothing is known of what it took.
#[derive(Drop)]
pub struct HostSink<W, A: Allocator> {
    sink: OutSink<Noting<W>>,
    replacement: Option<Replacement<A>>,
}

impl<W: Write, A: Allocator> Sink for HostSink<W, A> {
    ghost taken = { λ _. None };

    ghost failures = { λ s. s.sink.failures };

    fn put(&mut self, piece: &[u8]) -> Result<usize, SinkFault> {
        self.sink.put(piece)
    }
}

/// The files of a runtime. Nothing is known of their bytes.
///
/// A regular file is replaced by a whole new one: its sink writes a file beside it, `.halfgates-N.tmp`, which is
/// renamed when the sink is kept, and removed otherwise. It has the permissions of the file that it replaces. A FIFO or
/// a device is written as its sink takes bytes. Each name of standard output is refused.
#[derive(Drop)]
pub struct HostFiles<'r, R: rt::Files + Alloc> {
    rt: &'r R,
    log: FileLog,
    failures: FileFailures<HostSink<R::File, R::A>, InSource<Noting<R::File>>>,
}

impl<'r, R: rt::Files + Alloc> HostFiles<'r, R> {
    /// The files of this runtime. None has failed yet.
    pub fn new(rt: &'r R) -> HostFiles<'r, R>
        ensures { result.failures ≡ [] }
    {
        HostFiles {
            rt,
            log: FileLog::new(),
            failures: FileFailures::new(),
        }
    }

    /// Adds that the file of this name can't be read, and returns why.
    fn fail_to_read<T>(&mut self, name: &str, error: &io::Error) -> Result<T, FileError>
        ensures counted { CountsRead result name.now self.old.failures self.new.failures }
        ensures failed { IsErr result }
    {
        let fault = cause_of(error);
        if let FileError::CannotRead = fault {
            self.log.fail(Cause::of(error.kind()));
            self.failures.add_one(name);
        }
        Err(fault)
    }

    /// Adds that the file of this name can't be written, and returns why.
    fn fail_to_write<T>(&mut self, name: &str, error: &io::Error) -> Result<T, FileError>
        ensures counted { CountsWrite result name.now self.old.failures self.new.failures }
        ensures failed { IsErr result }
    {
        if error.kind() == ErrorKind::OutOfMemory {
            return Err(FileError::Memory);
        }
        self.log.fail(Cause::of(error.kind()));
        self.failures.add_one(name);
        Err(FileError::CannotWrite)
    }
}

impl<'r, R: rt::Files + Alloc> Files for HostFiles<'r, R> {
    type Sink = HostSink<R::File, R::A>;

    type Source = InSource<Noting<R::File>>;

    ghost bytes = { λ _ _. None };

    ghost failures = { λ f. f.failures };

    fn is_regular(&self, name: &str) -> bool {
        is_regular(self.rt, name)
    }

    fn read<A: Allocator + Copy>(&mut self, alloc: A, name: &str) -> Result<Vec<u8, A>, FileError> {
        self.log.open(name);
        match read_file(self.rt, alloc, name) {
            Ok(bytes) => Ok(bytes),
            Err(error) => self.fail_to_read(name, &error),
        }
    }

    fn create(&mut self, name: &str, source: &str) -> Result<HostSink<R::File, R::A>, FileError> {
        self.log.open(name);
        match create_sink(self.rt, name, source) {
            Ok(sink) => Ok(sink),
            Err(error) => self.fail_to_write(name, &error),
        }
    }

    fn keep(&mut self, name: &str, sink: HostSink<R::File, R::A>) -> Result<(), FileError> {
        self.failures.add_sink(name, &sink);
        match keep_sink(self.rt, sink) {
            Ok(()) => Ok(()),
            Err(error) => {
                self.log.fail(Cause::of(error.kind()));
                self.failures.add_one(name);
                Err(FileError::CannotWrite)
            }
        }
    }

    fn discard(&mut self, name: &str, sink: HostSink<R::File, R::A>) {
        self.failures.add_sink(name, &sink);
        let HostSink { sink, replacement } = sink;
        if let Some(cause) = sink.into_inner().cause() {
            self.log.fail(cause);
        }
        if let Some(replacement) = replacement {
            replacement.remove(self.rt);
        }
    }

    fn open(&mut self, name: &str) -> Result<InSource<Noting<R::File>>, FileError> {
        self.log.open(name);
        match fs::open(self.rt, name) {
            Ok(file) => Ok(InSource::new(Noting::new(file))),
            Err(error) => self.fail_to_read(name, &error),
        }
    }

    fn shut(&mut self, name: &str, source: InSource<Noting<R::File>>) {
        self.failures.add_source(name, &source);
        if let Some(cause) = source.into_inner().cause() {
            self.log.fail(cause);
        }
    }
}

impl<'r, R: rt::Files + Alloc> Reread for HostFiles<'r, R> {
    fn read_again<A: Allocator + Copy>(&self, alloc: A, name: &str) -> Option<Vec<u8, A>> {
        if !self.is_regular(name) {
            return None;
        }
        read_file(self.rt, alloc, name).ok()
    }

    fn log(&self) -> &FileLog {
        &self.log
    }
}

/// Whether the file of this name, or that to which it links, is a regular file.
fn is_regular(rt: &impl rt::Files, name: &str) -> bool {
    matches!(fs::metadata(rt, name), Ok(found) if found.is_file())
}

/// A sink for the file of this name, which is not `source`.
fn create_sink<R: rt::Files + Alloc>(
    rt: &R,
    name: &str,
    source: &str,
) -> io::Result<HostSink<R::File, R::A>>
    ensures unfailed { IfOk result (λ sink. sink.sink.failures ≡ 0) }
    ensures apart { IfOk result (λ _. name.now ≢ source.now) }
{
    if name == source {
        return Err(ErrorKind::InvalidInput.into());
    }
    let (file, replacement) = open_out(rt, name, source)?;
    Ok(HostSink {
        sink: OutSink::new(Noting::new(file)),
        replacement,
    })
}

/// Writes out what a sink holds back, and puts its file in the place of the one that it replaces.
fn keep_sink<W: Write + Drop, A: Allocator>(
    files: &impl rt::Files,
    sink: HostSink<W, A>,
) -> io::Result<()> {
    let flushed = sink.sink.into_inner().flush();
    match (flushed, sink.replacement) {
        (Ok(()), Some(replacement)) => replacement.finish(files),
        (Err(error), Some(replacement)) => {
            replacement.remove(files);
            Err(error)
        }
        (flushed, None) => flushed,
    }
}

/// All the bytes of the file of this name.
fn read_file<A: Allocator>(rt: &impl rt::Files, alloc: A, name: &str) -> io::Result<Vec<u8, A>> {
    let mut file = fs::open(rt, name)?;
    let mut bytes = Vec::with_capacity(alloc, room_for(rt, name))?;
    file.read_to_end(&mut bytes)?;
    Ok(bytes)
}

/// How many bytes to make room for before the file of this name is read: its length, as far as the system tells it, and
/// one more, with which reading finds the end. A vector that grows meanwhile would get up to twice as much.
fn room_for(rt: &impl rt::Files, name: &str) -> usize {
    match fs::metadata(rt, name) {
        Ok(found) if found.is_file() => found.len().saturating_add(1) as usize,
        _ => 0,
    }
}

/// All the bytes that a reader has left. `Memory` comes where they could not be kept, and `CannotRead` where the
/// reader failed otherwise.
pub fn read_all<A: Allocator, R: Read>(alloc: A, reader: &mut R) -> Result<Vec<u8, A>, FileError>
    ensures bytes { IfOk result (λ v. IfSome (R.remaining reader.old) (λ bytes. v.items ≡ bytes)) }
    ensures end { OnOk result (IsAtEnd (R.remaining reader.new)) }
    ensures error { IfErr result (λ e. e ≢ FileError.CannotWrite) }
{
    let mut bytes = Vec::new(alloc);
    match reader.read_to_end(&mut bytes) {
        Ok(_) => Ok(bytes),
        Err(error) => Err(cause_of(&error)),
    }
}

/// Why a file's bytes could not be had, where this was the error.
fn cause_of(error: &io::Error) -> FileError
    ensures memory { (result ≡ FileError.Memory) ↔ (error_kind error.now ≡ ErrorKind.OutOfMemory) }
    ensures reading { result ≢ FileError.CannotWrite }
{
    match error.kind() {
        ErrorKind::OutOfMemory => FileError::Memory,
        _ => FileError::CannotRead,
    }
}
