//! Evaluating a garbled circuit on many threads.
//!
//! An evaluation takes rows, decode bits and one active label for each input wire alone. [`evaluate_many`] returns the
//! output bits of a [`Job`], as [`evaluate`] does on one thread. A caller with threads of its own opens an
//! [`EvalBoard`] for them. A [`Walk`](gc_steps::Walk) gives them the gates in a suitable order.
#![tactic(auto)]

mod active;
mod closed;
mod many;
mod one_job;
mod open;
mod seat;
mod step;
mod worker;

pub use active::Active;
pub use gc_job::{BindFault, EvalFault, Job, ReadGate, evaluate};
pub use gc_steps::Answer;
pub use gc_workers::{CloseRefused, OpenFault};
pub use many::evaluate_many;
pub use seat::{EvalBoard, EvalSeat};
