//! A gatehouse that knows the calling thread.

use gc_workers::Gatehouse;
use std::fs;
use std::sync::atomic::{AtomicU64, Ordering};
use std::test::Fail;

/// The system's name for the thread that this is called on.
fn own_thread(rt: HostRuntime) -> Option<String> {
    let mut status = fs::read_to_string(&rt, "/proc/thread-self/stat").ok()?;
    let end = status.find(' ')?;
    status.truncate(end);
    Some(status)
}

/// Counts the reports of worker 0 that come from the thread that made this gatehouse, and those that come from another
/// one.
#[derive(Drop)]
pub struct Calling {
    rt: HostRuntime,
    thread: String,
    own: AtomicU64,
    strange: AtomicU64,
}

impl Calling {
    /// A gatehouse of the thread that calls this.
    pub fn new(rt: HostRuntime) -> Result<Calling, Fail> {
        Ok(Calling {
            rt,
            thread: own_thread(rt).ok_or("the system names its threads")?,
            own: AtomicU64::new(0),
            strange: AtomicU64::new(0),
        })
    }

    /// Whether worker 0 reported gates, all from its thread.
    pub fn is_worker_0(&self) -> bool {
        self.own.load(Ordering::SeqCst) > 0 && self.strange.load(Ordering::SeqCst) == 0
    }
}

impl Gatehouse for Calling {
    fn before(&self, worker: u32, _gate: u32) {
        if worker != 0 {
            return;
        }
        let is_own = own_thread(self.rt).is_some_and(|thread| thread == self.thread);
        let reports = if is_own { &self.own } else { &self.strange };
        reports.fetch_add(1, Ordering::SeqCst);
    }
}
