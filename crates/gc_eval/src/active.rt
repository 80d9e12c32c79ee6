//! A board that is closed.

ghost use Rattle.std.specs.Prelude.{◌≡◌, ℕ, ◌+◌, ◌*◌};
ghost use Rattle.std.specs.Slots.{slots_items, slots_len, IsFull};
ghost use Rattle.gc_gates.specs.Layout.{one_round};
ghost use Rattle.gc_gates.specs.Gates.{Cell};
ghost use Rattle.gc_job.specs.ActiveLabels.{gates_of};
ghost use Rattle.gc_eval.specs.OneJob.{IsRight};

use atomic_table::Closed;
use gc_job::{Job, Wiring};
use std::alloc::{Allocator, Global};

/// The active labels of the gates that the seats of a board made.
pub struct Active<'j, 'c, B: Allocator = Global, A: Allocator = Global, C: Allocator = Global> {
    pub(crate) job: &'j Job<'c, A, C>,
    pub(crate) wiring: Wiring<'c, B, C>,
    pub(crate) closed: Closed<u8, B>,
    ghost wired: { wiring ≡ job.now.circuit },
    ghost long: { (slots_len closed.words ≡ 3 * gates_of job.now + 1) × (slots_len closed.slots ≡ 0)
        × IsFull closed.words },
    ghost right: { (g : ℕ)
        → Cell one_round gates_of IsRight job.now (slots_items closed.words) 0 g },
}

impl<'j, 'c, B: Allocator, A: Allocator, C: Allocator> Drop for Active<'j, 'c, B, A, C> {
    fn drop(self) {
        let Active {
            job: _,
            wiring,
            closed,
        } = self;
        drop(wiring);
        closed.free();
    }
}
