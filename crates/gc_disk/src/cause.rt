//! Why the system refused a call on a file.

ghost use Rattle.std.specs.Prelude.{◌≡◌};
ghost use Rattle.gc_disk.specs.Cause.{cause_of};

use std::io::ErrorKind;

/// Why the system refused a call on a file, as users are told.
#[derive(Clone, Copy, Debug, PartialEq, Eq)]
pub enum Cause {
    /// There is no file of this name.
    NotFound,
    /// The user may not do this with the file.
    NotPermitted,
    /// The name is that of a directory.
    IsDirectory,
    /// The reader of a pipe has closed it.
    ClosedPipe,
    /// The disk is full.
    FullDisk,
    /// The name is one that no file is written for.
    NotWritten,
    /// Another reason.
    Other,
}

impl Cause {
    /// The cause that the kind of an error tells.
    pub fn of(kind: ErrorKind) -> Cause
        ensures { result ≡ cause_of kind }
    {
        match kind {
            ErrorKind::NotFound => Cause::NotFound,
            ErrorKind::PermissionDenied => Cause::NotPermitted,
            ErrorKind::IsADirectory => Cause::IsDirectory,
            ErrorKind::BrokenPipe => Cause::ClosedPipe,
            ErrorKind::StorageFull => Cause::FullDisk,
            ErrorKind::InvalidInput => Cause::NotWritten,
            _ => Cause::Other,
        }
    }
}
