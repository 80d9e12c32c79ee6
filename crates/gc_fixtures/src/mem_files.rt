//! Files in memory.

ghost use Rattle.std.specs.Prelude.{◌≡◌, ℕ, List, [], Option, Some, None, false, IfOk, option_map};
ghost use Rattle.gc_disk.specs.Files.{CountsRead};
ghost use Rattle.gc_fixtures.specs.MemFiles.{bytes_at, held_bytes, written_or};

use gc_disk::{Cause, FileError, FileFailures, FileLog, Files, Reread};
use gc_file::{MemSink, MemSource};
use std::alloc::{Allocator, Global};
use std::marker::Model;

/// How much goes well before files fail.
#[derive(Clone, Copy, Debug)]
pub struct Limits {
    /// This many calls of the files.
    pub calls: u32,
    /// This many bytes of each source, if a number is given.
    pub given: Option<usize>,
    /// This many bytes of each sink, if a number is given.
    pub taken: Option<usize>,
}

impl Limits {
    /// All goes well.
    pub const NONE: Limits = Limits {
        calls: u32::MAX,
        given: None,
        taken: None,
    };
}

/// Files in memory, by name, each with its bytes. One file can be written, which can't be read here; it takes its
/// memory from the allocator.
#[derive(Drop)]
pub struct MemFiles<'a, B: Allocator = Global> {
    alloc: B,
    files: &'a [(&'a str, &'a [u8])],
    written: Option<(String<B>, Vec<u8, B>)>,
    // How many sinks were created, and neither kept nor discarded.
    open_sinks: u32,
    limits: Limits,
    log: FileLog,
    failures: FileFailures<MemSink<B>, MemSource<'a>>,
}

impl<'a, B: Allocator> Model for MemFiles<'a, B> {
    ghost use Rattle.std.specs.Prelude.{option_map, string_bytes};
    ghost use Rattle.gc_fixtures.specs.MemFiles.{HeldFiles};

    ghost Value = { HeldFiles };

    ghost view = { λ f. record {
      files = f.files.now;
      written = option_map (λ file. (string_bytes file.0, file.1.items)) f.written;
      limits = f.limits;
      failures = f.failures;
    } };
}

impl<'a, B: Allocator> MemFiles<'a, B> {
    /// Files that never fail.
    pub fn new(alloc: B, files: &'a [(&'a str, &'a [u8])]) -> MemFiles<'a, B>
        ensures { result
            ≡ record { files = files.now; written = None; limits = Limits.NONE; failures = [] } }
    {
        MemFiles::limited(alloc, files, Limits::NONE)
    }

    /// Files that fail beyond these limits.
    pub fn limited(alloc: B, files: &'a [(&'a str, &'a [u8])], limits: Limits) -> MemFiles<'a, B>
        ensures { result
            ≡ record { files = files.now; written = None; limits = limits; failures = [] } }
    {
        MemFiles {
            alloc,
            files,
            written: None,
            open_sinks: 0,
            limits,
            log: FileLog::new(),
            failures: FileFailures::new(),
        }
    }

    /// The bytes of the file that was written, if one was.
    pub fn written(&self) -> Option<&[u8]> {
        match &self.written {
            Some((_, bytes)) => Some(bytes.as_slice()),
            None => None,
        }
    }

    /// How many sinks were created, and neither kept nor discarded.
    pub fn open_sinks(&self) -> u32 {
        self.open_sinks
    }

    /// Whether one more call goes well.
    fn goes_well(&mut self) -> bool
        ensures files { self.new.files ≡ self.old.files }
        ensures written { self.new.written ≡ self.old.written }
        ensures failures { self.new.failures ≡ self.old.failures }
    {
        let well = self.limits.calls > 0;
        self.limits.calls = self.limits.calls.saturating_sub(1);
        well
    }

    /// Whether a file of this name was written.
    fn has_written(&self, name: &str) -> bool
        ensures { result ≡ false → (held : Option (List ℕ))
            → written_or self.now.written name.now held ≡ held }
    {
        match &self.written {
            Some((written, _)) => written.as_str() == name,
            None => false,
        }
    }

    /// The bytes of the file of this name. It is one call, which fails where there is no such file.
    fn take_bytes(&mut self, name: &str) -> Result<&'a [u8], FileError>
        ensures bytes { IfOk result (λ bytes. held_bytes self.old name.now ≡ Some bytes.now) }
        ensures files { self.new.files ≡ self.old.files }
        ensures written { self.new.written ≡ self.old.written }
        ensures counted { CountsRead result name.now self.old.failures self.new.failures }
    {
        self.log.open(name);
        if self.goes_well() && !self.has_written(name) {
            if let Some(bytes) = held_at(self.files, name) {
                return Ok(bytes);
            }
        }
        self.log.fail(Cause::NotFound);
        self.failures.add_one(name);
        Err(FileError::CannotRead)
    }
}

/// The bytes of the first file of this name.
fn held_at<'a>(files: &[(&'a str, &'a [u8])], name: &str) -> Option<&'a [u8]>
    ensures { option_map (λ bytes. bytes.now) result ≡ bytes_at files.now name.now }
{
    for file in files {
        if file.0 == name {
            return Some(file.1);
        }
    }
    None
}

impl<'a, B: Allocator + Copy> Files for MemFiles<'a, B> {
    type Sink = MemSink<B>;

    type Source = MemSource<'a>;

    ghost bytes = { λ f name. held_bytes f name };

    ghost failures = { λ f. f.failures };

    fn is_regular(&self, name: &str) -> bool {
        held_at(self.files, name).is_some()
    }

    fn read<A: Allocator + Copy>(&mut self, alloc: A, name: &str) -> Result<Vec<u8, A>, FileError> {
        let bytes = self.take_bytes(name)?;
        Ok(Vec::from_slice(alloc, bytes)?)
    }

    fn create(&mut self, name: &str, source: &str) -> Result<MemSink<B>, FileError> {
        self.log.open(name);
        if self.goes_well() && name != source {
            self.open_sinks = self.open_sinks.saturating_add(1);
            return Ok(MemSink::new(self.alloc, self.limits.taken));
        }
        self.log.fail(Cause::NotWritten);
        self.failures.add_one(name);
        Err(FileError::CannotWrite)
    }

    fn keep(&mut self, name: &str, sink: MemSink<B>) -> Result<(), FileError> {
        self.open_sinks = self.open_sinks.saturating_sub(1);
        self.failures.add_sink(name, &sink);
        if self.goes_well() && self.written.is_none() {
            if let Ok(name) = String::from_str(self.alloc, name) {
                self.written = Some((name, sink.into_bytes()));
                return Ok(());
            }
        }
        self.log.fail(Cause::FullDisk);
        self.failures.add_one(name);
        Err(FileError::CannotWrite)
    }

    fn discard(&mut self, name: &str, sink: MemSink<B>) {
        self.open_sinks = self.open_sinks.saturating_sub(1);
        self.failures.add_sink(name, &sink);
    }

    fn open(&mut self, name: &str) -> Result<MemSource<'a>, FileError> {
        let bytes = self.take_bytes(name)?;
        Ok(MemSource::new(bytes, self.limits.given))
    }

    fn shut(&mut self, name: &str, source: MemSource<'a>) {
        self.failures.add_source(name, &source);
    }
}

impl<'a, B: Allocator + Copy> Reread for MemFiles<'a, B> {
    fn read_again<A: Allocator + Copy>(&self, alloc: A, name: &str) -> Option<Vec<u8, A>> {
        if self.has_written(name) {
            return None;
        }
        let bytes = held_at(self.files, name)?;
        Vec::from_slice(alloc, bytes).ok()
    }

    fn log(&self) -> &FileLog {
        &self.log
    }
}
