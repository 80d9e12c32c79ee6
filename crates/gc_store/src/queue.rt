//! How far each gate is, and the queue of those that are ready.

ghost use Rattle.std.specs.Prelude.{◌≡◌, ◌↔◌, ◌<◌, ◌+◌, ◌-◌, ◌^◌, ℕ, IsTrue, IfOk, Some, length, map, replicate, count_by, slice_get, slice_set, slice_index_or};
ghost use Rattle.gc_store.specs.declared.gate_state.GateState.TheVariants as mark;
ghost use Rattle.gc_store.specs.Queue.{with_mark, Takes, freed, is_busy};

use crate::gate_set::GateSet;
use crate::gate_state::GateState;
use crate::tables::repeated;
use gc_circuit::Memory;
use std::alloc::Allocator;
use std::marker::Model;

/// A mark and a countdown for each gate, and the queue of the gates that are free and have the countdown 0.
///
/// They go about in file order, as the tables lie, so that what gates near each other read is still in the processor's
/// caches. No clause says in which order they go.
///
/// [`Queue::open`] takes all its memory.
#[derive(Drop)]
pub struct Queue<A: Allocator> {
    // By gate.
    marks: Vec<GateState, A>,
    countdowns: Vec<u8, A>,
    queued: GateSet<A>,
    // How many gates are claimed or finished.
    busy: u32,
}

impl<A: Allocator> Model for Queue<A> {
    ghost use Rattle.gc_store.specs.Queue.{GateProgress, IsQueue};

    ghost Value = { GateProgress };

    ghost view = { λ q. record { marks = q.marks.items; countdowns = q.countdowns.items } };

    ghost invariant = { λ q.
        IsQueue (record { marks = q.marks.items; countdowns = q.countdowns.items })
        q.queued q.busy };
}

impl<A: Allocator + Copy> Queue<A> {
    /// A queue where every gate is free, with these countdowns less one: the opening itself counts each gate down. The
    /// caller ensures that there are fewer than 2^32 of them, and that none is 0.
    pub fn open(alloc: A, countdowns: Vec<u8, A>) -> Result<Queue<A>, Memory>
        requires few { length countdowns.items < 2 ^ 32 }
        requires positive { (i : ℕ) → i < length countdowns.items
            → 0 < slice_index_or countdowns.items i 0 }
        ensures marks { IfOk result (λ q. q.marks ≡ replicate (length countdowns.items) mark.Free) }
        ensures count { IfOk result (λ q. length q.countdowns ≡ length countdowns.items) }
        ensures countdowns { IfOk result
            (λ q. (i n : ℕ) → slice_get countdowns.items i ≡ Some (n + 1)
            → slice_get q.countdowns i ≡ Some n) }
    {
        let gates = countdowns.len() as u32;
        let mut queue = Queue {
            marks: repeated(alloc, GateState::Free, gates)?,
            queued: GateSet::open(alloc, gates)?,
            countdowns,
            busy: 0,
        };
        for gate in 0..gates {
            queue.count_down(gate);
        }
        Ok(queue)
    }
}

impl<A: Allocator> Queue<A> {
    /// Whether a gate is claimed. The caller ensures that there is such a gate.
    #[inline]
    pub fn is_claimed(&self, gate: u32) -> bool
        requires { gate < length self.now.marks }
        ensures { IsTrue result ↔ (slice_get self.now.marks gate ≡ Some mark.Claimed) }
    {
        self.marks[gate as usize].is_claimed()
    }

    /// Claims a ready gate. It looks for one from the gate `from` on, and then from the first on; which one it finds is
    /// not promised.
    #[inline]
    pub fn take(&mut self, from: u32) -> Option<u32>
        ensures { Takes self.old result self.new }
    {
        let gate = self.queued.take(from)?;
        self.marks[gate as usize] = GateState::Claimed;
        self.busy += 1;
        Some(gate)
    }

    /// Marks a gate as finished. The caller ensures that it is claimed.
    #[inline]
    pub fn finish(&mut self, gate: u32)
        requires { slice_get self.old.marks gate ≡ Some mark.Claimed }
        ensures { self.new ≡ with_mark self.old gate mark.Finished }
    {
        self.marks[gate as usize] = GateState::Finished;
    }

    /// Counts a gate down by one, and queues it where that was the last. The caller ensures that its countdown isn't 0.
    #[inline]
    pub fn count_down(&mut self, gate: u32)
        requires { 0 < slice_index_or self.old.countdowns gate 0 }
        ensures marks { self.new.marks ≡ self.old.marks }
        ensures countdowns { self.new.countdowns ≡
            slice_set self.old.countdowns gate (slice_index_or self.old.countdowns gate 0 - 1) }
    {
        let rest = self.countdowns[gate as usize] - 1;
        self.countdowns[gate as usize] = rest;
        if rest == 0 {
            self.queued.insert(gate);
        }
    }

    /// Puts a gate back into the queue. The caller ensures that it is claimed.
    pub fn put_back(&mut self, gate: u32)
        requires { slice_get self.old.marks gate ≡ Some mark.Claimed }
        ensures { self.new ≡ with_mark self.old gate mark.Free }
    {
        self.busy -= 1;
        self.marks[gate as usize] = GateState::Free;
        self.queued.insert(gate);
    }

    /// How many gates are claimed or finished.
    #[inline]
    pub fn busy(&self) -> u32
        ensures { result ≡ count_by is_busy self.now.marks }
    {
        self.busy
    }

    /// Puts all claimed gates back into the queue.
    pub fn reopen(&mut self)
        ensures marks { self.new.marks ≡ map freed self.old.marks }
        ensures countdowns { self.new.countdowns ≡ self.old.countdowns }
    {
        for gate in (0..self.marks.len() as u32).rev() {
            if self.is_claimed(gate) {
                self.put_back(gate);
            }
        }
    }
}
