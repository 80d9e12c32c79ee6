//! A box in its two parts.

ghost use Rattle.std.specs.Prelude.{◌≡◌};
ghost use Rattle.std_alloc.specs.Box.Ownership.{box_owns};

use std::alloc::Allocator;
use std::marker::Model;

/// A box in its two parts. It owns what the box does.
pub(crate) struct BoxParts<T, A: Allocator> {
    pub(crate) at: *mut T,
    pub(crate) alloc: A,
    pub ghost value: { T },
}

impl<T, A: Allocator> Model for BoxParts<T, A> {
    ghost also_owns = { λ p. box_owns (A.dealloc_token p.alloc) T.row p.at p.value };
}

impl<T: Drop, A: Allocator> BoxParts<T, A> {
    /// The parts of a box.
    pub(crate) fn of(held: Box<T, A>) -> BoxParts<T, A>
        ensures { result.value ≡ held.value }
    {
        let (at, alloc) = Box::into_raw_with_allocator(held);
        BoxParts { at, alloc }
    }

    /// The box of these parts.
    pub(crate) fn into_box(self) -> Box<T, A>
        ensures { result.value ≡ self.value }
    {
        let BoxParts { at, alloc } = self;
        unsafe { Box::from_raw(alloc, at) }
    }
}
