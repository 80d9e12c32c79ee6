//! C's pointer to a handle, for the time of a call.

ghost use Rattle.std.specs.Prelude.{◌≡◌, ℕ};
ghost use Rattle.std.specs.declared.option.Option.{Option};
ghost use Rattle.halfgates_c.specs.Behind.{borrow_owns};
ghost use Rattle.gc_kept.specs.declared.held.Held.{Held};
ghost use Rattle.gc_kept.specs.contracts.held.Held.{the_row as held_row};

use crate::borrow::Borrow;
use gc_kept::Held;
use std::marker::Model;
use std::mem;

/// C's pointer to a handle, with a right to read what it holds; or null. Each call has one of its own, so several may
/// read one handle at once.
#[repr(C)]
#[derive(Drop)]
pub struct Handle {
    at: *mut u8,
    pub ghost held: { Option Held },
    pub ghost round: { ℕ },
    pub ghost parts: { ℕ },
}

impl Model for Handle {
    ghost also_owns = { λ h. borrow_owns held_row h.at h.held h.round h.parts };
}

impl Handle {
    ghost use Rattle.halfgates_c.specs.Borrowing.{handle_of};

    fn of_borrow(borrow: Borrow<Held>) -> Handle
        ensures { result ≡ handle_of borrow }
    {
        let Borrow { at } = borrow;
        Handle { at: at as *mut u8 }
    }

    fn into_borrow(self) -> Borrow<Held>
        ensures { (result.value ≡ self.held) × (self ≡ handle_of result) }
    {
        let Handle { at } = self;
        Borrow {
            at: at as *mut Held,
        }
    }

    /// Takes the pointer with its right to read, for the time of a call. `put` gives it back.
    pub(crate) fn take(&mut self) -> Borrow<Held>
        ensures held { result.value ≡ self.old.held }
        ensures whole { self.old ≡ handle_of result }
    {
        mem::replace(self, Handle::of_borrow(Borrow::null())).into_borrow()
    }

    /// Gives back what was taken.
    pub(crate) fn put(&mut self, borrow: Borrow<Held>)
        ensures { self.new ≡ handle_of borrow }
    {
        *self = Handle::of_borrow(borrow);
    }
}

/// What is computed of what a handle holds, where this is of a kind; else the value for a handle of another kind, or
/// that for a null, which are their codes where none are given. The handle is as it was then.
macro_rules! on_held {
    ($handle:ident, $kind:ident($it:ident) => $of_it:expr) => {
        crate::handle::on_held!(
            $handle,
            $kind($it) => $of_it,
            wrong crate::code::WRONG_HANDLE,
            null crate::code::NULL_POINTER
        )
    };
    ($handle:ident, $kind:ident($it:ident) => $of_it:expr, wrong $wrong:expr, null $null:expr) => {{
        let borrow = $handle.take();
        match borrow.get() {
            Some(gc_kept::Held::$kind(held)) => {
                let answer = {
                    let $it = held;
                    $of_it
                };
                $handle.put(borrow);
                answer
            }
            Some(_) => {
                $handle.put(borrow);
                $wrong
            }
            None => {
                $handle.put(borrow);
                $null
            }
        }
    }};
}

pub(crate) use on_held;
