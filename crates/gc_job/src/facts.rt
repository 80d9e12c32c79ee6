//! A job, as contracts see it.

use crate::detached::DetachedJob;
use gc_circuit::Circuit;
use std::alloc::{Allocator, Global};
use std::marker::Model;
use std::snapshot::Snapshot;

/// A job as contracts see it. It has no bytes.
#[derive(Drop)]
pub struct Facts<A: Allocator = Global, C: Allocator = Global> {
    pub(crate) circuit: Snapshot<Circuit<C>>,
    pub(crate) detached: Snapshot<DetachedJob<A>>,
}

impl<A: Allocator, C: Allocator> Model for Facts<A, C> {
    ghost use Rattle.gc_job.specs.Job.{JobParts, job_of};

    ghost Value = { JobParts };

    ghost view = { λ f. job_of f.circuit.value f.detached.value.garbled f.detached.value.inputs };
}
