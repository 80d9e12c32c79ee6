//! Tests of a reader that fails in mid-stream, and of a file on a disk for whose sink a growth is refused.

use gc_disk::{FileError, Files, HostFiles, read_all};
use gc_fixtures::compare::equal;
use gc_fixtures::refusing::Refusing;
use std::alloc::Global;
use std::io::{self, ErrorKind, Read};
use std::path::PathBuf;
use std::test::Fail;
use std::{env, fs, process};

/// A reader that gives this many bytes, and then fails for this reason.
#[derive(Drop)]
struct Failing {
    left: usize,
    reason: ErrorKind,
}

impl Read for Failing {
    fn read(&mut self, buf: &mut [u8]) -> io::Result<usize> {
        let count = buf.len().min(self.left);
        self.left -= count;
        if count == 0 {
            return Err(self.reason.into());
        }
        Ok(count)
    }
}

/// No byte is returned of a stream that fails, neither at once nor after some bytes.
#[test]
fn fails_where_a_stream_fails(rt: HostRuntime) -> Result<(), Fail> {
    let rows = [
        (0, ErrorKind::BrokenPipe, FileError::CannotRead),
        (1, ErrorKind::UnexpectedEof, FileError::CannotRead),
        (5000, ErrorKind::BrokenPipe, FileError::CannotRead),
        (5000, ErrorKind::OutOfMemory, FileError::Memory),
    ];
    for (left, reason, error) in rows {
        let answer = read_all(rt.alloc(), &mut Failing { left, reason });
        equal((left, answer.err()), (left, Some(error)))?;
    }
    Ok(())
}

/// Why there is no sink for the file of this path. A sink is let go.
fn error_of_sink(files: &mut impl Files, path: &str) -> Option<FileError> {
    match files.create(path, "another file") {
        Ok(sink) => {
            files.discard(path, sink);
            None
        }
        Err(error) => Some(error),
    }
}

/// The same over memory of a heap.
fn error_over(rt: &HostRuntime, heap: &Refusing<Global>, path: &str) -> Option<FileError> {
    error_of_sink(&mut HostFiles::new(&(rt, heap)), path)
}

/// How many growths a sink for the file of this path takes. Where one is refused there is no sink.
fn growths_of_sink(rt: &HostRuntime, path: &str) -> Option<u64> {
    for growth in 1..100 {
        let heap = Refusing::nth(rt.alloc(), growth);
        match error_over(rt, &heap, path) {
            Some(FileError::Memory) => {}
            None if heap.refused() == 0 => return Some(growth - 1),
            _ => return None,
        }
    }
    None
}

/// The path of a file of this process alone, in the folder for such files.
fn own_path(rt: &HostRuntime) -> Result<PathBuf, Fail> {
    let name = format!(in rt.alloc(); "halfgates_sink_{}", process::id(rt.process()))?;
    Ok(env::temp_dir(rt)?.join(rt.alloc(), name.as_str())?)
}

/// Whether the file has the byte 2 alone.
fn is_old(rt: &HostRuntime, path: &str) -> bool {
    match fs::read(rt, path) {
        Ok(bytes) => bytes.as_slice() == [2].as_slice(),
        Err(_) => false,
    }
}

/// A file has its old bytes, whatever growth of its sink is refused.
#[test]
fn each_growth_of_a_sink_refused(rt: HostRuntime) -> Result<(), Fail> {
    let path = own_path(&rt)?;
    fs::write(&rt, path.as_str(), [2].as_slice())?;
    let growths = growths_of_sink(&rt, path.as_str());
    let is_old = is_old(&rt, path.as_str());
    fs::remove_file(&rt, path.as_str())?;
    let enough = growths.unwrap_or(0) > 2;
    equal((is_old, growths, enough), (true, growths, true))
}
