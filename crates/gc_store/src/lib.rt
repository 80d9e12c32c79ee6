//! The store of a garbling in progress: how far each gate of a circuit is, and which gates are ready.
//!
//! A gate of a [`Store`] is free, claimed or finished. [`Store::claim`] hands out the [`Task`] of a free gate
//! whose input labels are known, [`Sealed::make`] garbles it, apart from the store, and [`Store::finish`] takes
//! it back. What the store keeps of a finished gate is always the half-gate garbling of that gate.
#![tactic(auto)]

mod batch;
mod beginning;
mod gate_set;
mod gate_state;
mod partial;
mod queue;
mod readers;
mod refusal;
mod shared;
mod store;
mod tables;
mod tally;
mod task;

pub use batch::{BATCH_SIZE, Batch};
pub use partial::Opening;
pub use refusal::Refused;
pub use shared::{Claimant, SharedStore};
pub use store::Store;
pub use tally::{Tally, TallyMissing};
pub use task::{Sealed, Task};
