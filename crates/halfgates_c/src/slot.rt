//! C's pointer to a handle, which C owns.

ghost use Rattle.std.specs.Prelude.{◌≡◌, None, Some, MatchOption, OnOk, OnErr, IfOk, IfErr};
ghost use Rattle.std.specs.declared.option.Option.{Option};
ghost use Rattle.gc_kept.specs.declared.held.Held.{Held};
ghost use Rattle.gc_kept.specs.contracts.held.Held.{the_row as held_row};
ghost use Rattle.halfgates_c.specs.Behind.{box_behind};

use crate::box_parts::BoxParts;
use gc_kept::{Held, KeptFault};
use std::alloc::Global;
use std::marker::Model;
use std::mem;
use std::ptr::null_mut;

/// C's pointer to a handle: it owns what the handle holds, or is null. The heap's handle takes no bytes, so to C it is
/// one pointer.
#[repr(C)]
pub struct Slot {
    at: *mut u8,
    alloc: Global,
    pub ghost held: { Option Held },
}

impl Model for Slot {
    ghost also_owns = { λ s. box_behind held_row s.alloc s.at s.held };
}

impl Slot {
    ghost use Rattle.halfgates_c.specs.Holding.{Holds};

    /// The pointer of a box in its parts.
    fn of_parts(parts: BoxParts<Held, Global>) -> Slot
        ensures { result.held ≡ Some parts.value }
    {
        let BoxParts { at, alloc } = parts;
        Slot {
            at: at as *mut u8,
            alloc,
        }
    }

    /// The parts of the box, and `None` at null.
    fn into_parts(self) -> Option<BoxParts<Held, Global>>
        ensures { MatchOption result (self.held ≡ None) (λ parts. self.held ≡ Some parts.value) }
    {
        let Slot { at, alloc } = self;
        if at.is_null() {
            None
        } else {
            Some(BoxParts {
                at: at as *mut Held,
                alloc,
            })
        }
    }

    /// Writes the pointer to a handle of this. The pointer that was there isn't looked at, as C needn't have set it.
    pub(crate) fn hand_out(&mut self, alloc: Global, held: Held) -> Result<(), KeptFault>
        ensures done { OnOk result (Holds self.new held) }
        ensures fault { IfErr result (λ fault. fault ≡ KeptFault.Memory) }
        ensures kept { OnErr result (self.new ≡ self.old) }
    {
        let slot = Slot::holding(alloc, held)?;
        mem::forget(mem::replace(self, slot));
        Ok(())
    }

    /// Null.
    fn null(alloc: Global) -> Slot
        ensures { result.held ≡ None }
    {
        Slot {
            at: null_mut(),
            alloc,
        }
    }

    /// Takes the box out, for the time of a call that changes what it holds, and leaves null. `put` gives it back.
    pub(crate) fn take(&mut self, alloc: Global) -> Option<Box<Held, Global>>
        ensures held { MatchOption result (self.old.held ≡ None)
            (λ held. self.old.held ≡ Some held.value) }
        ensures left { self.new.held ≡ None }
    {
        let parts = mem::replace(self, Slot::null(alloc)).into_parts()?;
        Some(parts.into_box())
    }

    /// Gives back what was taken: the pointer is the box's, where it was.
    pub(crate) fn put(&mut self, held: Box<Held, Global>)
        ensures { Holds self.new held.value }
    {
        *self = Slot::of_parts(BoxParts::of(held));
    }

    /// The pointer to a handle of this.
    pub(crate) fn holding(alloc: Global, held: Held) -> Result<Slot, KeptFault>
        ensures done { IfOk result (λ slot. Holds slot held) }
        ensures fault { IfErr result (λ fault. fault ≡ KeptFault.Memory) }
    {
        Ok(Slot::of_parts(BoxParts::of(Box::new(alloc, held)?)))
    }
}

impl Drop for Slot {
    fn drop(self) {
        if let Some(parts) = self.into_parts() {
            drop(parts.into_box());
        }
    }
}
