//! A gatehouse that counts.

use gc_workers::Gatehouse;
use std::alloc::{AllocError, Global};
use std::sync::atomic::{AtomicU64, Ordering};

/// Counts how often each gate is reported, and knows the highest number of a worker that reports any.
#[derive(Drop)]
pub struct Counting {
    reports: Vec<AtomicU64>,
    // That number, plus 1.
    workers: AtomicU64,
}

impl Counting {
    /// An observer of this number of gates. None is reported yet.
    pub fn new(alloc: Global, gates: u32) -> Result<Counting, AllocError> {
        let mut reports = Vec::with_capacity(alloc, gates as usize)?;
        for _gate in 0..gates {
            reports.push(AtomicU64::new(0))?;
        }
        let workers = AtomicU64::new(0);
        Ok(Counting { reports, workers })
    }

    /// Whether each gate is reported this often at least, and none more often than `most`.
    pub fn is_each_reported(&self, least: u64, most: u64) -> bool {
        for reports in &self.reports {
            let reports = reports.load(Ordering::SeqCst);
            if reports < least || reports > most {
                return false;
            }
        }
        true
    }

    /// Whether each worker that reported a gate has a number below this one.
    pub fn are_below(&self, workers: u32) -> bool {
        self.workers.load(Ordering::SeqCst) <= u64::from(workers)
    }
}

impl Gatehouse for Counting {
    fn before(&self, worker: u32, gate: u32) {
        self.workers
            .fetch_max(u64::from(worker) + 1, Ordering::SeqCst);
        if let Some(reports) = self.reports.get(gate as usize) {
            reports.fetch_add(1, Ordering::SeqCst);
        }
    }
}
