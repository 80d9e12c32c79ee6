//! Batches: a few tasks at once.

ghost use Rattle.std.specs.Prelude.{◌≡◌, ◌↔◌, ◌<◌, ◌≤◌, [], ◌∷◌, ◌++◌, IsTrue, MatchOption, length};
ghost use Rattle.gc_store.specs.declared.batch.TheConstants.{BATCH_SIZE};

use crate::task::Task;
use arrayvec::ArrayVec;
use std::marker::Model;

/// The most tasks that a batch holds.
pub const BATCH_SIZE: usize = 16;

/// Up to [`BATCH_SIZE`] tasks, in place: a batch doesn't allocate.
#[derive(Drop)]
pub struct Batch {
    // None of them is None, which alone can fill the places that are not used.
    tasks: ArrayVec<Option<Task>, BATCH_SIZE>,
}

impl Model for Batch {
    ghost use Rattle.std.specs.Prelude.{◌≡◌, List, Some, map};
    ghost use Rattle.gc_store.specs.declared.task.Task.{Task};
    ghost use Rattle.gc_store.specs.Batch.{tasks_of};

    ghost Value = { List Task };

    ghost view = { λ b. tasks_of b.tasks.items };

    ghost invariant = { λ b. b.tasks.items ≡ map Some (tasks_of b.tasks.items) };
}

impl Batch {
    /// An empty batch.
    pub fn new() -> Batch
        ensures { result ≡ [] }
    {
        Batch {
            tasks: ArrayVec::new(),
        }
    }

    /// How many tasks there are.
    #[inline]
    pub fn len(&self) -> usize
        ensures { result ≡ length self.now }
    {
        self.tasks.len()
    }

    /// Whether there are no tasks.
    #[inline]
    pub fn is_empty(&self) -> bool
        ensures { IsTrue result ↔ (self.now ≡ []) }
    {
        self.tasks.is_empty()
    }

    /// Takes out the task that was put in last, if there is one.
    #[inline]
    pub fn pop(&mut self) -> Option<Task>
        ensures { MatchOption result ((self.old ≡ []) × (self.new ≡ []))
            (λ task. self.old ≡ self.new ++ task ∷ []) }
    {
        self.tasks.pop()?
    }

    /// Whether there is room for no further task.
    #[inline]
    pub(crate) fn is_full(&self) -> bool
        ensures full { IsTrue result ↔ (length self.now ≡ BATCH_SIZE) }
        ensures few { length self.now ≤ BATCH_SIZE }
    {
        self.tasks.is_full()
    }

    /// Puts in a task. The caller ensures that there is room for it.
    #[inline]
    pub(crate) fn push(&mut self, task: Task)
        requires { length self.old < BATCH_SIZE }
        ensures { self.new ≡ self.old ++ task ∷ [] }
    {
        self.tasks.push(Some(task));
    }
}
