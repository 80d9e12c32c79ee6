//! Pieces of a file's bytes.

ghost use Rattle.std.specs.Prelude.{◌≡◌, ◌+◌, ◌-◌, ◌≤◌, ◌++◌, length, take, drop, OnOk};
ghost use Rattle.arrayvec.specs.ArrayVec.{array_vec_len};

use arrayvec::ArrayVec;
use std::alloc::{AllocError, Allocator};

/// The first `at` bytes, or all where there are fewer, and the others.
#[inline]
pub(crate) fn cut(bytes: &[u8], at: usize) -> (&[u8], &[u8])
    ensures front { result.0.now ≡ take at bytes.now }
    ensures rest { result.1.now ≡ drop at bytes.now }
{
    bytes.split_at(at.min(bytes.len()))
}

/// Puts bytes for which there is room after the others.
#[inline]
pub(crate) fn append<const N: usize>(room: &mut ArrayVec<u8, N>, bytes: &[u8])
    requires { array_vec_len room.old + length bytes.now ≤ N }
    ensures items { room.new.items ≡ room.old.items ++ bytes.now }
    ensures len { array_vec_len room.new ≡ array_vec_len room.old + length bytes.now }
{
    let _ = room.try_extend_from_slice(bytes);
}

/// Makes room for more items, where there is none: at least as much again as there was, and for no more than `most`
/// items in all where these are enough. So an allocation never needs more room than twice what `most` items take.
pub(crate) fn make_room<T, A: Allocator>(
    items: &mut Vec<T, A>,
    more: usize,
    most: usize,
) -> Result<(), AllocError>
    ensures { items.new.items ≡ items.old.items }
{
    let needed = items.len().saturating_add(more);
    if needed <= items.capacity() {
        return Ok(());
    }
    let room = items.capacity().saturating_mul(2).min(most).max(needed);
    items.reserve_exact(room.saturating_sub(items.len()))
}
