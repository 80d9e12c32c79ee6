//! Pools of tasks: one owner fills a pool and takes from its back, and thieves take from its front.

ghost use Rattle.std.specs.Prelude.{◌≡◌, ◌+◌, ◌<◌, ◌≤◌, [], ◌∷◌, ◌++◌, codes, length, IfOk, IfErr, MatchResult, MatchOption, IfNone};
ghost use Rattle.gc_work.specs.Pool.{stolen_by, AllOf, IsConserved, IsTakenFrom};

use crate::account::{Hands, OnePart, PoolAccount, PoolRule, Pops, Pushes, Steals};
use crossbeam_deque::{Pass, Steal, Stealer, Worker};
use gc_circuit::Memory;
use gc_store::Task;
use std::alloc::{Allocator, Global};
use std::error::Error;
use std::fmt;
use std::marker::Model;

/// A pool of tasks, which its threads share. A contract sees which pool it is.
#[derive(Drop)]
pub struct TaskPool<A: Allocator = Global> {
    stealer: Stealer<Task, A, PoolAccount, PoolRule>,
}

/// The one that pushes to a pool and pops from it. A contract sees its pool, the capacity and the number of
/// thieves that the pool was opened with, and the tasks that it pushed and popped.
#[derive(Drop)]
pub struct Owner<A: Allocator = Global> {
    worker: Worker<Task, A, PoolAccount, PoolRule>,
    capacity: u32,
    thieves: u32,
}

/// One that steals from a pool. A contract sees its pool and the tasks that it stole.
#[derive(Drop)]
pub struct Thief<A: Allocator = Global> {
    pass: Pass<Task, PoolAccount, A>,
}

/// A pool whose owner and thieves are all back. A contract sees all the tasks that were pushed, popped and stolen,
/// and those left. One that it hands out is popped.
#[derive(Drop)]
pub struct Gathered<A: Allocator = Global> {
    worker: Worker<Task, A, PoolAccount, PoolRule>,
}

impl<A: Allocator> Model for TaskPool<A> {
    ghost use Rattle.atomic_blocks.specs.Lent.{RowsId};
    ghost use Rattle.crossbeam_deque.specs.Handles.{stealer_deque};

    ghost Value = { RowsId × A };

    ghost view = { λ p. stealer_deque p.stealer };
}

impl<A: Allocator> Model for Owner<A> {
    ghost use Rattle.crossbeam_deque.specs.Handles.{worker_deque, worker_view, worker_capacity, worker_index};
    ghost use Rattle.gc_work.specs.Kept.{IsOwning};
    ghost use Rattle.gc_work.specs.Pool.{OwnerParts};

    ghost Value = { OwnerParts A };

    ghost view = { λ o. record {
      pool = worker_deque o.worker;
      capacity = o.capacity;
      thieves = o.thieves;
      pushed = (worker_view o.worker).pushed;
      popped = (worker_view o.worker).popped;
    } };

    ghost invariant = { λ o. IsOwning (worker_view o.worker) (worker_capacity o.worker)
        (worker_index o.worker)
        o.capacity o.thieves };
}

impl<A: Allocator> Model for Thief<A> {
    ghost use Rattle.gc_work.specs.Kept.{IsThieving, stolen_list};
    ghost use Rattle.gc_work.specs.Pool.{ThiefParts};

    ghost Value = { ThiefParts A };

    ghost view = { λ t. record { pool = (t.pass.rows, t.pass.heap); stolen = stolen_list t.pass } };

    ghost invariant = { λ t. IsThieving t.pass };
}

impl<A: Allocator> Model for Gathered<A> {
    ghost use Rattle.crossbeam_deque.specs.Handles.{worker_view};
    ghost use Rattle.gc_work.specs.Kept.{IsGathered};
    ghost use Rattle.gc_work.specs.Left.{left_of};
    ghost use Rattle.gc_work.specs.Pool.{GatheredParts};

    ghost Value = { GatheredParts };

    ghost view = { λ g. record {
      pushed = (worker_view g.worker).pushed;
      popped = (worker_view g.worker).popped;
      stolen = (worker_view g.worker).stolen;
      left = left_of (worker_view g.worker);
    } };

    ghost invariant = { λ g. IsGathered (worker_view g.worker) };
}

/// A pool had no room for a task, and could not grow.
#[derive(Clone, Copy, PartialEq, Eq, Debug)]
pub struct NoRoom {
    /// The task that was refused.
    pub task: Task,
}

impl NoRoom {
    /// The number of the refusal.
    pub fn code(self) -> u32
        ensures { result ≡ 24 }
    {
        24
    }

    /// Its name.
    pub fn name(self) -> &'static str
        ensures { result.now ≡ codes "NoRoom" }
    {
        "NoRoom"
    }
}

impl fmt::Display for NoRoom {
    ghost use Rattle.std.specs.Prelude.{Some, codes};

    ghost output = { λ _. Some (codes "NoRoom") };

    fn fmt<W: fmt::Write>(&self, f: &mut fmt::Formatter<W>) -> fmt::Result {
        f.write_str("NoRoom")
    }
}

impl Error for NoRoom {}

impl<A: Allocator + Copy> TaskPool<A> {
    /// A pool with room for `capacity` tasks, its owner, and as many thieves as asked for.
    pub fn open(
        alloc: A,
        capacity: u32,
        thieves: u32,
    ) -> Result<(TaskPool<A>, Owner<A>, Vec<Thief<A>, A>), Memory>
        ensures owner { IfOk result (λ r. r.1 ≡ record {
          pool = r.0;
          capacity = capacity;
          thieves = thieves;
          pushed = [];
          popped = [];
        }) }
        ensures thieves { IfOk result (λ r. (length r.2.items ≡ thieves) × AllOf r.0 r.2.items
            × (stolen_by r.2.items ≡ [])) }
    {
        let mut worker: Worker<Task, A, PoolAccount, PoolRule> = Worker::lifo_as(
            alloc,
            capacity as usize,
        )?;
        let stealer = worker.stealer()?;
        let mut others = Vec::with_capacity(alloc, thieves as usize)?;
        for _i in 0..thieves {
            let pass = worker.another::<OnePart>();
            others.push(Thief { pass })?;
        }
        let owner = Owner {
            worker,
            capacity,
            thieves,
        };
        Ok((TaskPool { stealer }, owner, others))
    }
}

impl<A: Allocator> TaskPool<A> {
    /// Pushes a task. Where the pool has no room and can't grow it gives the task back, and nothing changes; it never
    /// does so at the first `capacity` pushes, which don't allocate. The caller ensures that the owner is this pool's.
    pub fn push(&self, owner: &mut Owner<A>, task: Task) -> Result<(), NoRoom>
        requires { owner.old.pool ≡ self.now }
        ensures pushed { MatchResult result
            (λ _. owner.new ≡ record owner.old { pushed = owner.old.pushed ++ task ∷ [] })
            (λ e. (e.task ≡ task) × (owner.new ≡ owner.old)) }
        ensures room { IfErr result (λ _. owner.old.capacity ≤ length owner.old.pushed) }
    {
        match owner.worker.push_as::<Pushes>(task) {
            Ok(()) => Ok(()),
            Err(task) => Err(NoRoom { task }),
        }
    }

    /// Pops a task, where this attempt takes one. Else nothing changes; of a pool without thieves that comes only where
    /// each task that was pushed is popped. It takes from the back of the pool, but which task it takes is not
    /// promised. The caller ensures that the owner is this pool's. It doesn't allocate.
    pub fn pop(&self, owner: &mut Owner<A>) -> Option<Task>
        requires { owner.old.pool ≡ self.now }
        ensures popped { MatchOption result (owner.new ≡ owner.old)
            (λ t. owner.new ≡ record owner.old { popped = owner.old.popped ++ t ∷ [] }) }
        ensures alone { owner.old.thieves ≡ 0 → IfNone result (IsConserved owner.old.pushed
            owner.old.popped [] []) }
    {
        owner.worker.pop_as::<Pops>()
    }

    /// Steals a task, where this attempt takes one. Else nothing changes. It takes from the front of the pool, but
    /// which task it takes is not promised. The caller ensures that the thief is this pool's. It doesn't allocate.
    pub fn steal(&self, thief: &mut Thief<A>) -> Option<Task>
        requires { thief.old.pool ≡ self.now }
        ensures { MatchOption result (thief.new ≡ thief.old)
            (λ t. thief.new ≡ record thief.old { stolen = thief.old.stolen ++ t ∷ [] }) }
    {
        match self.stealer.steal_as::<Steals>(&mut thief.pass) {
            Steal::Success(task) => Some(task),
            _ => None,
        }
    }

    /// Takes the owner and all thieves of the pool back. Where a thief is missing it gives all back. The caller ensures
    /// that the owner and the thieves are this pool's. It doesn't allocate.
    ///
    /// The tasks pushed are, as counts, those popped, those stolen and those left.
    pub fn gather(
        self,
        owner: Owner<A>,
        thieves: Vec<Thief<A>, A>,
    ) -> Result<Gathered<A>, (TaskPool<A>, Owner<A>, Vec<Thief<A>, A>)>
        requires own { owner.pool ≡ self }
        requires all { AllOf self thieves.items }
        ensures missing { IfErr result
            (λ r. (r ≡ (self, owner, thieves)) × (length thieves.items < owner.thieves)) }
        ensures here { IfOk result (λ _. owner.thieves ≤ length thieves.items) }
        ensures whole { IfOk result (λ g. g ≡ record {
          pushed = owner.pushed;
          popped = owner.popped;
          stolen = stolen_by thieves.items;
          left = g.left;
        }) }
        ensures conserved { IfOk result (λ g. IsConserved g.pushed g.popped g.stolen g.left) }
    {
        if thieves.len() < owner.thieves as usize {
            return Err((self, owner, thieves));
        }
        let Owner {
            mut worker,
            capacity: _,
            thieves: _,
        } = owner;
        for thief in thieves {
            let Thief { pass } = thief;
            worker.absorb::<OnePart>(pass);
        }
        worker.len_as::<Hands>();
        Ok(Gathered { worker })
    }
}

impl<A: Allocator> Gathered<A> {
    /// Hands out one of the tasks that are left: it is popped, and the rest stays. None comes only where none is left,
    /// and changes nothing. It doesn't allocate.
    ///
    /// The tasks pushed are, as counts, those popped, those stolen and those left, also now.
    pub fn next(&mut self) -> Option<Task>
        ensures left { MatchOption result (self.old.left ≡ [])
            (λ t. IsTakenFrom t self.old.left self.new.left) }
        ensures popped { MatchOption result (self.new ≡ self.old) (λ t. self.new ≡ record self.old {
          popped = self.old.popped ++ t ∷ [];
          left = self.new.left;
        }) }
        ensures conserved { IsConserved self.new.pushed self.new.popped self.new.stolen
            self.new.left }
    {
        self.worker.pop_as::<Hands>()
    }
}
