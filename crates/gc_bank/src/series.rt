//! What the words of two banks are about: a list of jobs, as contracts see it.

use gc_gates::Subject;
use gc_job::Facts;
use gc_steps::Jobs;
use std::alloc::{Allocator, Global};
use std::marker::Model;

/// The jobs of the rounds, in order. An item has no bytes.
#[derive(Drop)]
pub struct Series<B: Allocator = Global, A: Allocator = Global, C: Allocator = Global> {
    pub(crate) jobs: Vec<Facts<A, C>, B>,
}

impl<B: Allocator, A: Allocator, C: Allocator> Model for Series<B, A, C> {
    ghost use Rattle.std.specs.Prelude.{List};
    ghost use Rattle.gc_job.specs.Job.{JobParts};

    ghost Value = { List JobParts };

    ghost view = { λ s. s.jobs.items };
}

impl<B: Allocator, A: Allocator, C: Allocator> Subject for Series<B, A, C> {
    ghost use Rattle.gc_bank.specs.Rounds.{gates_of_each, IsRightIn};

    ghost gates = { gates_of_each };

    ghost right = { IsRightIn };
}

impl<B: Allocator, A: Allocator, C: Allocator> Jobs for Series<B, A, C> {
    ghost use Rattle.gc_bank.specs.Rounds.{round_job, series_law};

    ghost job_at = { round_job };

    ghost laws = { series_law };
}
