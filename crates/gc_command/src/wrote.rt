//! Files that a command has written, and the line that it prints of them.

ghost use Rattle.std.specs.Prelude.{◌≡◌, ◌<◌, ◌≤◌, ◌≢◌, ℕ, List, [], Some, length, IfOk, IfErr, IsOk, OnOk, OnErr, vec_capacity};
ghost use Rattle.gc_file.specs.Counted.{CountsFailure};
ghost use Rattle.gc_file.specs.Written.{IsWritten};
ghost use Rattle.gc_disk.specs.Files.{HasFailed};
ghost use Rattle.gc_command.specs.Wrote.{KeepsFiles, wrote_line};

use crate::fault::Fault;
use gc_disk::Files;
use gc_file::{Sink, WriteFault};
use itoa::Buffer;
use std::alloc::Allocator;

/// Room for the longest line: `wrote `, the digits of a 64-bit number, and a line feed.
pub const ROOM: usize = 27;

/// Keeps the sink that a file was written to, and returns the number of the file's bytes. At a fault the file stays as
/// it is. The caller ensures that a sink whose writing failed has counted a failure.
pub fn keep_written<F: Files>(
    files: &mut F,
    name: &str,
    sink: F::Sink,
    written: Result<u64, WriteFault>,
) -> Result<u64, Fault>
    requires failed { OnErr written (0 < F.Sink.failures sink) }
    ensures written { IfOk result (λ count. (file : List ℕ)
        → IsWritten file written (Some []) (F.Sink.taken sink)
        → (F.bytes files.new name.now ≡ Some file) × (count ≡ length file)) }
    ensures all { OnOk result (IsOk written) }
    ensures fault { IfErr result (λ fault. fault ≡ Fault.CannotWrite) }
    ensures cause { OnErr result
        (HasFailed (F.failures files.old) (F.failures files.new) name.now) }
    ensures others { (n : List ℕ) → n ≢ name.now → F.bytes files.new n ≡ F.bytes files.old n }
    ensures unwritten { OnErr result (KeepsFiles (F.bytes files.old) (F.bytes files.new)) }
{
    match written {
        Ok(count) => {
            files.keep(name, sink)?;
            Ok(count)
        }
        Err(_) => {
            files.discard(name, sink);
            Err(Fault::CannotWrite)
        }
    }
}

/// Writes a file of these bytes to a sink that has taken none. Returns how many there are.
pub fn write_bytes<S: Sink>(sink: &mut S, bytes: &[u8]) -> Result<u64, WriteFault>
    ensures file { IsWritten bytes.now result (S.taken sink.old) (S.taken sink.new) }
    ensures counted { CountsFailure result (S.failures sink.old) (S.failures sink.new) }
{
    let mut sent = 0;
    while sent < bytes.len() {
        match sink.put(&bytes[sent..]) {
            Ok(n) => sent += n,
            Err(_) => return Err(WriteFault { sent: sent as u64 }),
        }
    }
    Ok(sent as u64)
}

/// The line that states a number of bytes. The caller ensures that `room` is empty and holds [`ROOM`] bytes, so that no
/// memory is taken.
pub fn wrote_line<A: Allocator>(room: Vec<u8, A>, count: u64) -> Vec<u8, A>
    requires empty { room.items ≡ [] }
    requires room { ROOM ≤ vec_capacity room }
    ensures { result.items ≡ wrote_line count }
{
    let mut line = room;
    let mut buffer = Buffer::new();
    line.extend_from_slice(b"wrote ").unwrap();
    line.extend_from_slice(buffer.format(count).as_bytes())
        .unwrap();
    line.push(b'\n').unwrap();
    line
}
