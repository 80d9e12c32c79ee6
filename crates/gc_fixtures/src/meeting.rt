//! A gatehouse that shows that several threads are at work.

use gc_workers::Gatehouse;
use std::sync::atomic::{AtomicU64, Ordering};

/// Holds the first worker that comes until another one comes, and counts its calls.
#[derive(Drop)]
pub struct Meeting {
    calls: AtomicU64,
    // The number of the first worker, plus 1.
    first: AtomicU64,
    // That of another worker, plus 1, once one came.
    other: AtomicU64,
}

impl Meeting {
    /// No worker has come yet.
    pub fn new() -> Meeting {
        Meeting {
            calls: AtomicU64::new(0),
            first: AtomicU64::new(0),
            other: AtomicU64::new(0),
        }
    }

    /// Whether a worker other than the first one came.
    pub fn has_met(&self) -> bool {
        self.other.load(Ordering::SeqCst) != 0
    }

    /// Whether the first worker and the last other one have numbers below this one.
    pub fn are_below(&self, workers: u32) -> bool {
        let most = u64::from(workers);
        self.first.load(Ordering::SeqCst) <= most && self.other.load(Ordering::SeqCst) <= most
    }

    /// How many calls there were.
    pub fn calls(&self) -> u64 {
        self.calls.load(Ordering::SeqCst)
    }

    fn wait(&self) {
        for _turn in 0..1_000_000_000u64 {
            if self.has_met() {
                return;
            }
        }
    }
}

impl Gatehouse for Meeting {
    fn before(&self, worker: u32, _gate: u32) {
        self.calls.fetch_add(1, Ordering::SeqCst);
        let number = u64::from(worker) + 1;
        let found = self
            .first
            .compare_exchange(0, number, Ordering::SeqCst, Ordering::SeqCst);
        match found {
            Ok(_) => self.wait(),
            Err(first) if first == number => {}
            Err(_) => self.other.store(number, Ordering::SeqCst),
        }
    }
}
