//! The line that explains a fault of a command: where it is, and what is wrong.
#![tactic(auto)]

mod binding;
mod cause;
mod circuit;
mod ended;
mod explanation;
mod file;
mod listed;
mod output;
mod sentence;
mod value;

pub use ended::Ended;
