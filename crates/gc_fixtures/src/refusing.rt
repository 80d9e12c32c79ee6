//! An allocator for tests, which refuses a chosen allocation and counts them all. So a test can let memory run out at
//! each allocation in turn.

use std::alloc::{AllocError, Allocator};
use std::sync::atomic::{AtomicU64, Ordering};

/// Which allocation is refused, counted from 1, and the allocations so far: how many were asked for, and how many of
/// these were refused.
#[derive(Drop)]
struct Tally {
    nth: u64,
    growths: AtomicU64,
    refused: AtomicU64,
}

impl Tally {
    /// Counts one more allocation, and says whether it is refused.
    fn refuses_next(&self) -> bool {
        let growth = self.growths.fetch_add(1, Ordering::SeqCst).wrapping_add(1);
        let refused = growth == self.nth;
        if refused {
            self.refused.fetch_add(1, Ordering::SeqCst);
        }
        refused
    }
}

/// An allocator that refuses an allocation, and hands the others to `inner`.
///
/// An allocation is one call of `allocate`: each time that a collection takes a block, be it larger or smaller than the
/// last. Lend it as `&heap` to the code under test, and read the counts after. Threads may share it, and each
/// allocation then has a number of its own.
pub struct Refusing<B: Allocator> {
    inner: B,
    tally: Tally,
}

impl<B: Allocator> Refusing<B> {
    /// Refuses no allocation, and counts them.
    pub fn never(inner: B) -> Refusing<B> {
        Refusing::nth(inner, 0)
    }

    /// Refuses the `n`-th allocation, counted from 1, and no other. At 0 it refuses none.
    pub fn nth(inner: B, n: u64) -> Refusing<B> {
        let tally = Tally {
            nth: n,
            growths: AtomicU64::new(0),
            refused: AtomicU64::new(0),
        };
        Refusing { inner, tally }
    }

    /// How many allocations were asked for so far, those that were refused among them.
    pub fn growths(&self) -> u64 {
        self.tally.growths.load(Ordering::SeqCst)
    }

    /// How many allocations were refused so far.
    pub fn refused(&self) -> u64 {
        self.tally.refused.load(Ordering::SeqCst)
    }
}

impl<B: Allocator> Drop for Refusing<B> {
    fn drop(self) {
        let Self { inner: _, tally: _ } = self;
    }
}

unsafe impl<B: Allocator> Allocator for Refusing<B> {
    ghost dealloc_token = { λ heap ty ptr. B.dealloc_token heap.inner ty ptr };

    fn allocate(&self, size: usize, align: usize) -> Result<*mut u8, AllocError> {
        if self.tally.refuses_next() {
            return Err(AllocError);
        }
        self.inner.allocate(size, align)
    }

    unsafe fn deallocate(&self, ptr: *mut u8, size: usize, align: usize) {
        self.inner.deallocate(ptr, size, align);
    }
}
