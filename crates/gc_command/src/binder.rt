//! The circuit that files are bound to.

use gc_circuit::Circuit;
use std::alloc::Allocator;

/// Binds garbled files and label files to a circuit.
#[derive(Drop)]
pub struct Binder<'c, A: Allocator> {
    /// The allocator.
    pub alloc: A,
    /// The circuit.
    pub circuit: &'c Circuit<A>,
    /// The digest of the circuit's canonical text.
    pub digest: &'c [u8; 32],
}
