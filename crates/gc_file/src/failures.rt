//! A count that only contracts read.

ghost use Rattle.std.specs.Prelude.{◌≡◌, ◌+◌};

use std::marker::Model;
use std::snapshot::Snapshot;

/// How often something outside the program has failed, as contracts see it: a number. No code holds it and it has no
/// last value; it is there to say that a result had a cause. It doesn't allocate.
#[derive(Drop)]
pub struct FailureCount {
    history: History,
}

/// No failure yet, or one more after those of a snapshot, which has no bytes.
#[derive(Drop)]
enum History {
    Start,
    After(Snapshot<History>),
}

impl Model for FailureCount {
    ghost use Rattle.std.specs.Prelude.{ℕ};
    ghost use Rattle.gc_file.specs.Failures.{number_of_failures};

    ghost Value = { ℕ };

    ghost view = { λ c. number_of_failures c.history };
}

impl FailureCount {
    /// No failure yet.
    pub fn new() -> FailureCount
        ensures { result ≡ 0 }
    {
        FailureCount {
            history: History::Start,
        }
    }

    /// Counts one more failure.
    pub fn add_one(&mut self)
        ensures { self.new ≡ self.old + 1 }
    {
        self.history = History::After(Snapshot::of(&self.history));
    }
}
