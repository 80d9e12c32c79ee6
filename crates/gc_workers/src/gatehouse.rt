//! Observers of workers.

/// An observer of the workers that garble or evaluate a circuit: each reports a gate here before it makes it.
pub trait Gatehouse {
    /// Worker `worker`, counted from 0, is about to seal gate `gate` of the file, or to step at it. It holds no lock.
    fn before(&self, worker: u32, gate: u32);
}

/// Reports the first `gates` gates of a file in turn, as worker 0.
pub fn report_all<H: Gatehouse>(observer: &H, gates: u32) {
    for gate in 0..gates {
        observer.before(0, gate);
    }
}

/// An observer that does nothing.
#[derive(Clone, Copy, Debug)]
pub struct Open;

impl Gatehouse for Open {
    #[inline]
    fn before(&self, _worker: u32, _gate: u32) {}
}
