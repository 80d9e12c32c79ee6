//! Circuits, garblings and jobs that own their circuit, so callers may free them in any order: what a library for other
//! languages hands out. Bits are bytes here, 0 and 1, and files are bytes in memory.
//!
//! A [`KeptCircuit`] has its digest once that is taken. A [`KeptGarbling`] and a [`KeptJob`] share their circuit. A
//! garbling is made under a seed, or from an offset and labels of the caller's; circuits that follow one another are
//! garbled and evaluated from labels to labels. A [`KeptGarbler`] gives its row pairs in pieces, and a
//! [`KeptEvaluator`] takes them so.
#![tactic(auto)]

mod audit;
mod bits;
mod both;
mod circuit;
mod each;
mod evaluator;
mod fault;
mod files;
mod from_labels;
mod garbler;
mod garbling;
mod garblings;
mod given;
mod held;
mod job;
mod jobs;
mod label_bytes;
mod label_file;
mod label_files;
mod many;
mod open;
mod plain;
mod room;
mod values;
mod version;

pub use audit::RowsAudit;
pub use bits::write_bits;
pub use circuit::KeptCircuit;
pub use each::evaluate_each;
pub use evaluator::KeptEvaluator;
pub use fault::KeptFault;
pub use from_labels::{EvaluationBytes, decode};
pub use garbler::KeptGarbler;
pub use garbling::KeptGarbling;
pub use garblings::write_many;
pub use given::StartBytes;
pub use held::Held;
pub use job::{JobBytes, KeptJob};
pub use jobs::evaluate_list;
pub use label_file::{InputBytes, SeededBytes};
pub use version::version_of;

/// How many row pairs are made or used at a time.
const CHUNK: usize = 256;
