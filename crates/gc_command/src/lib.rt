//! The commands on circuits and files, each in a module of its name.
//!
//! No command is inlined: in one frame, those of all commands take more than 128 KiB of stack.
#![tactic(auto)]

pub mod audit;
mod audit_lines;
mod binder;
pub mod check;
mod circuit_file;
mod context;
pub mod deal;
mod digest;
pub mod eval;
mod evaluated_files;
mod fault;
pub mod garble;
mod garbling;
mod job;
mod job_list;
pub mod jobs;
pub mod labels;
mod line_files;
mod line_group;
mod lines;
mod listed_job;
pub mod locate;
pub mod order;
mod own_files;
pub mod plain;
mod progress;
pub mod run;
mod seeded_circuit;
mod set_wires;
pub mod stats;
mod value_form;
mod values;
mod wrote;

pub use context::Context;
pub use fault::Fault;
pub use job_list::words_of_line;
pub use progress::{Progress, Silent, Stage};
pub use value_form::{ValueForm, law_output_values};
