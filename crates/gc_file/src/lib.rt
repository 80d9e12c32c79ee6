//! Garbled files and label files.
//!
//! A garbled file holds what the evaluator of a garbled circuit needs: the digest of the circuit, the row pairs of its
//! AND gates, and a decode bit for each output wire; in version 2 also two entries for each output wire, by which its
//! labels are recognised. A label file holds the labels of one input value.
//!
//! [`read_garbled`] reads a garbled file, and [`GarbledReader`] reads it from pieces of any size; [`read_labels`] reads
//! a label file. For bytes that aren't a file they return the first fault. [`law_garbled_file`] and [`law_label_file`]
//! say that all bytes are exactly one file or have exactly one first fault.
#![tactic(auto)]

mod body;
mod deal;
mod failures;
mod fault;
mod garbled;
mod header;
mod labels;
mod laws;
mod number;
mod pairs;
mod parts;
mod piece;
mod reader;
mod sink;
pub mod sizes;
mod source;
mod spell;
mod take;
mod write;
mod writer;
mod written_law;

pub use deal::{first_wire, sum_of, write_labels};
pub use failures::FailureCount;
pub use fault::FileFault;
pub use garbled::Garbled;
pub use labels::{LabelFile, labels_from_bytes, read_labels};
pub use laws::{law_garbled_file, law_label_file};
pub use number::{number_bytes, u32_at};
pub use pairs::read_rows;
pub use parts::{EntryPair, Version};
pub use reader::{GarbledReader, before_trailer, read_garbled, read_garbled_by_digest};
pub use sink::{MemSink, OutSink, Sink, SinkFault};
pub use source::{InSource, MemSource, Source};
pub use spell::label_header;
pub use take::{TakeFault, read_garbled_from};
pub use write::{GarbledSource, Trailer, write_garbled, write_garbled_file, write_garbled2};
pub use writer::WriteFault;
pub use written_law::law_written_files;
