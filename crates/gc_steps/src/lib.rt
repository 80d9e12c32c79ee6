//! Evaluating the gates of a job at words that many seats work at.
//!
//! A [`Round`] is one job at the words of its gates. [`Round::step`] makes a gate: it reads the labels of the wires
//! that the gate reads, claims the gate, computes its active label and publishes it. [`Round::step_two`] and
//! [`Round::step_four`] compute the labels of two and of four AND gates at once. A board is in round 0 for good; of
//! two banks each job has its round. No call waits or allocates.
#![tactic(auto)]

mod answer;
mod four;
mod jobs;
mod read;
mod round;
mod step;
mod two;
mod walk;

pub use answer::Answer;
pub use gc_half::Four;
pub use jobs::Jobs;
pub use round::{Prepared, Round};
pub use walk::{GateGroup, Walk};
