//! Buffers without room.

ghost use Rattle.std.specs.Prelude.{◌≤◌, length, IfErr, OnOk};
ghost use Rattle.gc_kept.specs.Files.{HasRoomFault, LacksRoom};

use crate::fault::KeptFault;

/// Checks that a buffer has room for `size` bytes.
pub(crate) fn has_room(size: usize, buffer: &[u8]) -> Result<(), KeptFault>
    ensures ok { OnOk result (size ≤ length buffer.now) }
    ensures fault { IfErr result (HasRoomFault size (length buffer.now)) }
{
    if buffer.len() < size {
        return Err(KeptFault::SmallBuffer);
    }
    Ok(())
}

/// The same for a file of this size, which the fault has.
pub(crate) fn has_file_room(size: usize, buffer: &[u8]) -> Result<(), KeptFault>
    ensures ok { OnOk result (size ≤ length buffer.now) }
    ensures fault { IfErr result (LacksRoom size (length buffer.now)) }
{
    has_room(size, buffer).map_err(|_| KeptFault::NeedsRoom(size))
}
