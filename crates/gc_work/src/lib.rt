//! Garbling on many threads, and the pools of tasks that its workers take from.
//!
//! [`garble`] garbles on one thread or through one store, as [`way_of`](gc_workers::way_of) says. Through a store
//! workers claim, seal and hand in gates under a lock, and what the store keeps at every moment makes the result right,
//! whatever the threads did.
//!
//! A [`TaskPool`] is filled and emptied by one [`Owner`] and emptied by any number of [`Thief`]s, with no lock.
//! What was pushed to it is what was taken from it and what is left, whatever the threads did.
#![tactic(auto)]

mod account;
mod fault;
mod garbling;
mod pool;
mod steal;
mod sweep;
mod worker;
mod workers;

pub use account::{PoolAccount, PoolRule};
pub use fault::WorkFault;
pub use garbling::garble;
pub use gc_workers::{Gatehouse, Open};
pub use pool::{Gathered, NoRoom, Owner, TaskPool, Thief};
