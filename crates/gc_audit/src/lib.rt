//! Comparing files with what a circuit and a seed give.
//!
//! [`audit_garbled`] says whether a garbled file is that of a circuit's garbling, and where each of its parts first
//! differs; [`audit_compared`] says the same of the parts that are counted, where the row pairs were compared as the
//! garbling's were made, and [`audit_row_bytes`] and [`audit_bits`] of row pairs and decode bits alone.
//! [`audit_labels`] says whether a label file is one that a dealer writes, and of which bits. The files were read
//! before, and nothing of them is trusted. [`law_audited_files`] says that what is found of their parts holds of their
//! bytes.
#![tactic(auto)]

mod counts;
mod depths;
mod entries;
mod figures;
mod garbled;
mod labels;
mod laws;
mod reference;
mod rows;
mod survey;

pub use entries::EntryDifference;
pub use figures::Stats;
pub use garbled::{
    ComparedFile, GarbledAudit, PartsAudit, are_counts_right, audit_bits, audit_compared,
    audit_garbled,
};
pub use labels::{LabelsVerdict, audit_labels, audit_labels_with_offset};
pub use laws::law_audited_files;
pub use reference::{Reference, SeedReference};
pub use rows::{DifferingRows, RowDifference, audit_row_bytes};
pub use survey::stats;
