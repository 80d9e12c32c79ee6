//! Lists of handles.

ghost use Rattle.std.specs.Prelude.{◌≡◌, IfOk, OnErr, length, map};
ghost use Rattle.halfgates_c.specs.Borrowing.{handle_of};

use crate::borrow::Borrow;
use crate::handle::Handle;
use gc_kept::Held;
use std::alloc::{AllocError, Global};

/// Takes each pointer with its right to read, for the time of a call. `put_all` gives them back.
pub(crate) fn take_all(
    alloc: Global,
    handles: &mut [Handle],
) -> Result<Vec<Borrow<Held>, Global>, AllocError>
    ensures taken { IfOk result (λ borrows. handles.old ≡ map handle_of borrows.items) }
    ensures count { length handles.new ≡ length handles.old }
    ensures kept { OnErr result (handles.new ≡ handles.old) }
{
    let mut borrows = Vec::with_capacity(alloc, handles.len())?;
    for i in 0..handles.len() {
        borrows.push_reserved(handles[i].take());
    }
    Ok(borrows)
}

/// Gives back what was taken.
pub(crate) fn put_all(mut borrows: Vec<Borrow<Held>, Global>, handles: &mut [Handle])
    requires { length handles.old ≡ length borrows.items }
    ensures { handles.new ≡ map handle_of borrows.items }
{
    while let Some(borrow) = borrows.pop() {
        let place = borrows.len();
        handles[place].put(borrow);
    }
}
