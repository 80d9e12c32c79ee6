//! A circuit, and the seed of its garbling.

use gc_circuit::Circuit;
use gc_label::Seed;
use std::alloc::Allocator;

/// A circuit, and the seed of its garbling.
#[derive(Drop)]
pub struct SeededCircuit<'a, A: Allocator> {
    /// The allocator.
    pub alloc: A,
    /// The circuit.
    pub circuit: &'a Circuit<A>,
    /// The seed.
    pub seed: &'a Seed,
}
