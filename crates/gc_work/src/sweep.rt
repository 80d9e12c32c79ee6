//! What the workers left, finished by one of them.

use gc_store::{Sealed, Store, Tally};
use gc_workers::Gatehouse;
use std::alloc::Allocator;
use std::sync::ledger::Ledger;

/// Finishes what is left in the store, as worker 0: what was claimed and not handed in goes again.
pub(crate) fn sweep<L: Ledger, A: Allocator, H: Gatehouse>(
    store: &mut Store<L, A>,
    tally: &mut Tally<L>,
    observer: &H,
) {
    store.reopen();
    while let Some(task) = store.claim() {
        observer.before(0, task.gate);
        match store.finish(Sealed::make(task), tally) {
            Ok(_) => {}
            Err(_) => return,
        }
    }
}
