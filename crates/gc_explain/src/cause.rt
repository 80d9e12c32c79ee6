//! Files that can't be read or written.

use crate::ended::Ended;
use crate::sentence::{Explanation, alone, on_file};
use gc_disk::{Cause, Reread};
use std::alloc::Allocator;

impl<A: Allocator + Copy, F: Reread> Ended<'_, A, F> {
    /// Explains why a file can't be read: the one that was opened last.
    pub(crate) fn explain_reading(&self) -> Option<Explanation<A>> {
        let log = self.files.log();
        let why = reason_of(log.cause());
        let sentence = format!(in self.alloc; "the file can't be read: {why}").ok()?;
        on_file(self.alloc, log.name(), self.with_line(sentence))
    }

    /// Explains why a file can't be written: the one that was opened last, or standard output where printing failed.
    pub(crate) fn explain_writing(&self) -> Option<Explanation<A>> {
        if self.printing.is_some() {
            let why = reason_of(self.printing);
            return alone(
                self.alloc,
                format!(in self.alloc; "standard output can't be written: {why}"),
            );
        }
        let log = self.files.log();
        let why = match log.cause() {
            Some(Cause::NotWritten) => "it is a name of standard output or of the circuit's file",
            cause => reason_of(cause),
        };
        on_file(
            self.alloc,
            log.name(),
            format!(in self.alloc; "the file can't be written: {why}"),
        )
    }
}

/// Why a file can't be read or written.
fn reason_of(cause: Option<Cause>) -> &'static str {
    match cause {
        Some(Cause::NotFound) => "there is no such file or directory",
        Some(Cause::NotPermitted) => "permission is denied",
        Some(Cause::IsDirectory) => "it is a directory",
        Some(Cause::ClosedPipe) => "the pipe is closed",
        Some(Cause::FullDisk) => "the disk is full",
        Some(Cause::NotWritten) | Some(Cause::Other) | None => "the system refused it",
    }
}
