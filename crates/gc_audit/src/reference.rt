//! What files are compared with.

ghost use Rattle.std.specs.Prelude.{IsTrue};
ghost use Rattle.gc_label.specs.Label.{colour};

use gc_circuit::Circuit;
use gc_half::Garbling;
use gc_label::{Offset, Seed};
use std::alloc::Allocator;

/// The garbling of a circuit that files are compared with, and its offset.
#[derive(Drop)]
pub struct Reference<'a, A: Allocator, B: Allocator> {
    pub circuit: &'a Circuit<A>,
    pub garbling: &'a Garbling<B>,
    pub offset: Offset,
}

impl<A: Allocator, B: Allocator> Reference<'_, A, B> {
    /// The law of offsets: the colour is 1. A call of it does nothing.
    pub(crate) fn law_coloured(&self)
        ensures { IsTrue (colour self.now.offset) }
    {
        let _ = self.offset.label();
    }
}

/// The zero labels of a circuit's garbling under a seed that files are compared with. The row pairs beside these labels
/// may be others.
#[derive(Drop)]
pub struct SeedReference<'a, A: Allocator, B: Allocator> {
    pub circuit: &'a Circuit<A>,
    pub labels: &'a Garbling<B>,
    pub seed: &'a Seed,
}
