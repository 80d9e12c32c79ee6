//! The files that commands read and write.

ghost use Rattle.std.specs.Prelude.{◌≡◌, ◌≢◌, ◌++◌, ℕ, List, [], replicate, Option, Some, IfOk, IfErr, OnOk, OnErr, IfSome};
ghost use Rattle.gc_disk.specs.Files.{GivesFile, FailedFiles, CountsRead, CountsWrite};

use std::alloc::{AllocError, Allocator};

/// Why a call on a file failed.
#[derive(Clone, Copy, Debug, PartialEq, Eq)]
pub enum FileError {
    /// There is no such file, or reading it failed.
    CannotRead,
    /// The file can't be made, or writing it failed.
    CannotWrite,
    /// There is no memory for it.
    Memory,
}

impl From<AllocError> for FileError {
    ghost use Rattle.std.specs.Prelude.{◌≡◌};
    ghost use Rattle.gc_disk.specs.declared.files.FileError.TheVariants as faults;

    ghost from_gives = { λ _ e. e ≡ faults.Memory };

    fn from(_e: AllocError) -> FileError {
        FileError::Memory
    }
}

/// Files by name, on a disk or in memory.
pub trait Files {
    /// Takes the bytes of a file that is written.
    type Sink: gc_file::Sink + Drop;

    /// Gives the bytes of a file that is read in pieces.
    type Source: gc_file::Source + Drop;

    // The bytes of the file of a name, where they are known. `None` claims nothing.
    ghost bytes: { Self → List ℕ → Option (List ℕ) };

    // The files that have failed so far. Failures of sinks that were kept and of sources that were shut count too.
    ghost failures: { Self → FailedFiles };

    /// Whether the file of this name is a regular file, which can be read ahead of its turn. Opening another may wait
    /// for its writer, its bytes may have no end, and reading may take them from it.
    fn is_regular(&self, name: &str) -> bool;

    /// The bytes of the file of this name. A file that can't be read has failed; where memory is refused, it has not.
    fn read<A: Allocator + Copy>(&mut self, alloc: A, name: &str) -> Result<Vec<u8, A>, FileError>
        ensures given { IfOk result (λ v. GivesFile (bytes self.old name.now) v.items) }
        ensures counted { CountsRead result name.now (failures self.old) (failures self.new) }
        ensures same { (n : List ℕ) → bytes self.new n ≡ bytes self.old n };

    /// A sink for the file of this name. The file stays as it is until the sink is kept. Where the bytes of any file
    /// are known, what the sink takes is known too. The name is refused where it is that of `source`, the file that the
    /// command reads, or another name of it. Where memory is refused, the file has not failed.
    fn create(&mut self, name: &str, source: &str) -> Result<Self::Sink, FileError>
        ensures empty { IfOk result (λ sink. (n : List ℕ) → IfSome (bytes self.old n)
            (λ _. Self.Sink.taken sink ≡ Some [])) }
        ensures unfailed { IfOk result (λ sink. Self.Sink.failures sink ≡ 0) }
        ensures counted { CountsWrite result name.now (failures self.old) (failures self.new) }
        ensures apart { IfOk result (λ _. name.now ≢ source.now) }
        ensures same { (n : List ℕ) → bytes self.new n ≡ bytes self.old n };

    /// Keeps a sink that was created for the file of this name: the file holds what it took, where that is known, or
    /// stays as it is at an error. The sink's failures are the file's.
    fn keep(&mut self, name: &str, sink: Self::Sink) -> Result<(), FileError>
        ensures held { OnOk result (IfSome (Self.Sink.taken sink)
            (λ taken. bytes self.new name.now ≡ Some taken)) }
        ensures counted { CountsWrite result name.now
            (failures self.old ++ replicate (Self.Sink.failures sink) name.now)
            (failures self.new) }
        ensures no_memory { IfErr result (λ e. e ≢ FileError.Memory) }
        ensures others { (n : List ℕ) → n ≢ name.now → bytes self.new n ≡ bytes self.old n }
        ensures unkept { OnErr result ((n : List ℕ) → bytes self.new n ≡ bytes self.old n) };

    /// Lets a sink go that was created for the file of this name. The file stays as it is. The sink's failures are the
    /// file's.
    fn discard(&mut self, name: &str, sink: Self::Sink)
        ensures counted { failures self.new
            ≡ failures self.old ++ replicate (Self.Sink.failures sink) name.now }
        ensures same { (n : List ℕ) → bytes self.new n ≡ bytes self.old n };

    /// A source of the file of this name. A file that can't be opened has failed; where memory is refused, it has not.
    fn open(&mut self, name: &str) -> Result<Self::Source, FileError>
        ensures given { IfOk result (λ source. IfSome (bytes self.old name.now)
            (λ known. Self.Source.left source ≡ Some known)) }
        ensures unfailed { IfOk result (λ source. Self.Source.failures source ≡ 0) }
        ensures counted { CountsRead result name.now (failures self.old) (failures self.new) }
        ensures same { (n : List ℕ) → bytes self.new n ≡ bytes self.old n };

    /// Lets a source of the file of this name go, which was opened for it. The source's failures are the file's.
    fn shut(&mut self, name: &str, source: Self::Source)
        ensures counted { failures self.new
            ≡ failures self.old ++ replicate (Self.Source.failures source) name.now }
        ensures same { (n : List ℕ) → bytes self.new n ≡ bytes self.old n };
}
