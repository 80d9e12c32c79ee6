//! The jobs of rounds.

use gc_gates::Subject;

/// A subject that is the evaluation of a job in each round.
pub trait Jobs: Subject {
    ghost use Rattle.std.specs.Prelude.{ℕ, Option};
    ghost use Rattle.gc_job.specs.Job.{JobParts};
    ghost use Rattle.gc_steps.specs.Jobs.{JobsLaw};

    /// The job of a round, where it has one.
    ghost job_at: { Self → ℕ → Option JobParts };

    ghost laws: { JobsLaw Self.right job_at };
}
