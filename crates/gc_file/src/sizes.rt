//! The sizes of files and of their parts, in bytes.

ghost use Rattle.gc_file.specs.Honest.{IsFileSize};

use crate::parts::Version;
use gc_circuit::Circuit;
use std::alloc::Allocator;

/// A label.
pub const LABEL: usize = 16;

/// A row pair, or an entry pair: two labels.
pub const PAIR: usize = 32;

/// The header of a garbled file: magic, digest and two counts.
pub const HEADER: usize = 48;

/// The trailer of a garbled file, a digest.
pub const TRAILER: usize = 32;

/// The header of a label file: magic, index and width.
pub const LABEL_HEADER: usize = 16;

/// How many bytes the garbled file of a version has, for the circuit's garbling under any seed.
pub fn garbled_size<A: Allocator>(circuit: &Circuit<A>, version: Version) -> u64
    ensures { IsFileSize version circuit.now result }
{
    circuit.law_lawful();
    let outputs = circuit.output_wires();
    let pairs = circuit.and_count() as usize + version.entry_count(outputs) as usize;
    let decode_bytes = outputs.div_ceil(8) as usize;
    (HEADER + PAIR * pairs + decode_bytes + TRAILER) as u64
}
