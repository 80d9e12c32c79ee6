//! A borrowed value behind a pointer.

ghost use Rattle.std.specs.Prelude.{◌≡◌, ℕ, None, Some, MatchOption};
ghost use Rattle.std.specs.declared.option.Option.{Option};
ghost use Rattle.halfgates_c.specs.Behind.{borrow_owns, borrow_shares};

use std::marker::Model;
use std::ptr::null_mut;

/// A pointer to a value with parts of the right to read it, or null. The whole right is 2^63 parts, so several may read
/// a value at once, each by parts of its own; nobody changes it or frees it while a part is out.
#[derive(Drop)]
pub(crate) struct Borrow<T> {
    pub(crate) at: *mut T,
    pub ghost value: { Option T },
    pub ghost round: { ℕ },
    pub ghost parts: { ℕ },
}

impl<T> Model for Borrow<T> {
    ghost also_owns = { λ b. borrow_owns T.row b.at b.value b.round b.parts };

    ghost also_shares = { λ b _ κ. borrow_shares T.row b.at b.value b.round κ };
}

impl<T> Borrow<T> {
    /// Null.
    pub(crate) fn null() -> Borrow<T>
        ensures { result.value ≡ None }
    {
        Borrow { at: null_mut() }
    }

    /// The value, and `None` at null.
    pub(crate) fn get(&self) -> Option<&T>
        ensures { MatchOption result (self.now.value ≡ None) (λ it. self.now.value ≡ Some it.now) }
    {
        let at = self.at;
        if at.is_null() {
            None
        } else {
            Some(unsafe { &*at })
        }
    }
}
