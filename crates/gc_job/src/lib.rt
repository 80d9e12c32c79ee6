//! The jobs of an evaluator: a circuit, what a garbled file of it holds, and one active label for each input wire.
//!
//! [`Job::bind`] makes a [`Job`] of a circuit, a garbled file and one label file for each input value.
//! [`output_labels`] evaluates it to the active labels of the output wires, which [`Job::decode`] decodes to bits;
//! [`evaluate`] does both, and [`evaluate_group`] evaluates up to four jobs side by side. [`law_honest_files`] says
//! that honest files are bound to an honest job.
#![tactic(auto)]

mod bind;
mod decode;
mod detached;
mod facts;
mod fault;
mod four;
mod job;
mod jobs;
mod laws;
mod one_thread;
mod readers;
mod wiring;

pub use decode::decoded;
pub use detached::{AsJob, DetachedJob, JobRef};
pub use facts::Facts;
pub use fault::{BindFault, EvalFault};
pub use four::evaluate_four;
pub use job::{Job, JobFiles};
pub use jobs::{MAX_GROUP, evaluate_group, evaluate_rest, none_known};
pub use laws::law_honest_files;
pub use one_thread::{evaluate, output_labels};
pub use readers::ReadGate;
pub use wiring::Wiring;
