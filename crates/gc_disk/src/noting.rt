//! Readers and writers that note why they failed.

use crate::cause::Cause;
use std::io::{self, Read, Write};

/// A reader or a writer, and why its last call that failed did.
#[derive(Drop)]
pub struct Noting<T> {
    stream: T,
    cause: Option<Cause>,
}

impl<T> Noting<T> {
    /// This reader or writer, of which no call has failed.
    pub(crate) fn new(stream: T) -> Noting<T> {
        Noting {
            stream,
            cause: None,
        }
    }

    /// Why its last call that failed did.
    pub(crate) fn cause(&self) -> Option<Cause> {
        self.cause
    }
}

impl<R: Read> Read for Noting<R> {
    ghost remaining = { λ n. R.remaining n.stream };

    fn read(&mut self, buf: &mut [u8]) -> io::Result<usize> {
        match self.stream.read(buf) {
            Ok(count) => Ok(count),
            Err(error) => {
                self.cause = Some(Cause::of(error.kind()));
                Err(error)
            }
        }
    }
}

impl<W: Write> Write for Noting<W> {
    ghost contents = { λ n. W.contents n.stream };

    fn write(&mut self, buf: &[u8]) -> io::Result<usize> {
        match self.stream.write(buf) {
            Ok(count) => Ok(count),
            Err(error) => {
                self.cause = Some(Cause::of(error.kind()));
                Err(error)
            }
        }
    }

    fn flush(&mut self) -> io::Result<()> {
        match self.stream.flush() {
            Ok(()) => Ok(()),
            Err(error) => {
                self.cause = Some(Cause::of(error.kind()));
                Err(error)
            }
        }
    }
}
