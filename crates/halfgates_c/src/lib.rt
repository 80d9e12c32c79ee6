//! The C library: what `include/halfgates.h` declares.
//!
//! Each export tests its pointers for null, reads what its handle holds, calls `gc_kept`, and returns a code. That a
//! pointer may be tested is C's condition, and holds of all that C can pass.
#![tactic(auto)]

mod arrays;
mod audit;
mod audit_labels;
mod borrow;
mod box_parts;
mod circuit;
mod code;
mod each;
mod evaluator;
mod explain;
mod files;
mod from_labels;
mod garbler;
mod garbling;
mod garblings;
mod handle;
mod job;
mod jobs;
mod list;
mod locate;
mod many;
mod name;
mod null;
mod slot;
mod values;
mod wires;

pub use audit::{Report, RowsReport};
pub use audit_labels::LabelsReport;
pub use circuit::Numbers;
pub use explain::Sentence;
pub use handle::Handle;
pub use locate::Place;
pub use name::Name;
pub use slot::Slot;
pub use wires::WireLabels;
