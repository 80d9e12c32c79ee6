//! Lists of jobs on one circuit.
//!
//! [`evaluate_jobs`] returns the output bits of each job of a list whose jobs are on [`one_circuit`]. [`Banks`] are two
//! sets of board words, used again job after job, at which many seats evaluate such a list.
#![tactic(auto)]

mod apart;
mod banks;
mod jobs;
mod open;
mod same_circuit;
mod seat;
mod series;
mod step;
mod together;
mod worker;

pub use gc_rounds::{Entry, Reopening};
pub use gc_workers::{CloseRefused, OpenFault};
pub use jobs::evaluate_jobs;
pub use same_circuit::one_circuit;
pub use seat::{BankSeat, Banks};
