//! What the words of a board are about: its job, as contracts see it.

use gc_gates::Subject;
use gc_job::Facts;
use gc_steps::Jobs;
use std::alloc::{Allocator, Global};
use std::marker::Model;

/// The job of a board. It has no bytes.
#[derive(Drop)]
pub struct OneJob<A: Allocator = Global, C: Allocator = Global> {
    pub(crate) facts: Facts<A, C>,
}

impl<A: Allocator, C: Allocator> Model for OneJob<A, C> {
    ghost use Rattle.gc_job.specs.Job.{JobParts};

    ghost Value = { JobParts };

    ghost view = { λ work. work.facts };
}

impl<A: Allocator, C: Allocator> Subject for OneJob<A, C> {
    ghost use Rattle.gc_job.specs.ActiveLabels.{gates_of};
    ghost use Rattle.gc_eval.specs.OneJob.{IsRight};

    ghost gates = { gates_of };

    ghost right = { IsRight };
}

impl<A: Allocator, C: Allocator> Jobs for OneJob<A, C> {
    ghost use Rattle.gc_eval.specs.OneJob.{round_job, one_job_law};

    ghost job_at = { round_job };

    ghost laws = { one_job_law };
}
