//! Files that are read once more, to explain a fault.

ghost use Rattle.std.specs.Prelude.{◌≡◌, IfSome};
ghost use Rattle.gc_disk.specs.Files.{GivesFile};

use crate::file_log::FileLog;
use crate::files::Files;
use std::alloc::Allocator;

/// Files of which it is known what was opened last, and that may be read once more.
pub trait Reread: Files {
    /// The bytes of the file of this name, where it is a regular file that can be read and there is memory for them. A
    /// FIFO or a device is never read a second time. A file that can't be read doesn't count as failed.
    fn read_again<A: Allocator + Copy>(&self, alloc: A, name: &str) -> Option<Vec<u8, A>>
        ensures { IfSome result (λ bytes. GivesFile (Self.bytes self.now name.now) bytes.items) };

    /// Which file was opened last.
    fn log(&self) -> &FileLog;
}
