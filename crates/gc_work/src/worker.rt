//! One worker: where its tasks come from, and where they go when they are sealed.

ghost use Rattle.std.specs.Prelude.{◌≡◌};
ghost use Rattle.gc_work.specs.Places.{IsPlacedWorker};

use crate::pool::{NoRoom, Owner, TaskPool};
use crate::steal::{PlacedThief, steal_any};
use gc_store::{BATCH_SIZE, Claimant, Sealed, SharedStore, Task};
use gc_workers::Gatehouse;
use std::alloc::Allocator;
use std::sync::Wait;
use std::sync::ledger::Ledger;

/// What the workers share: the store, their pools, and the observer.
#[derive(Drop)]
pub(crate) struct Shared<'a, L: Ledger, A: Allocator, H, R> {
    pub rt: &'a R,
    pub store: &'a SharedStore<L, A>,
    pub pools: &'a [TaskPool<A>],
    pub observer: &'a H,
}

/// What a worker has of its own: the place of its pool among all pools, its number, its tally with the tasks that it
/// has claimed, its pool's owner, a thief at each other pool, and room for tasks that it has sealed and not handed in.
#[derive(Drop)]
pub(crate) struct Worker<L: Ledger, A: Allocator> {
    pub place: usize,
    pub number: u32,
    pub claimant: Claimant<L>,
    pub owner: Owner<A>,
    pub thieves: Vec<PlacedThief<A>, A>,
    pub sealed: Vec<Sealed, A>,
}

/// The most tasks that a worker seals before it hands them in.
pub(crate) const MAX_SEALED: usize = BATCH_SIZE;

/// Pushes the tasks that the worker has claimed, for others to steal, and returns one that it keeps: the last, or one
/// that the pool has no room for.
fn share<L: Ledger, A: Allocator>(pool: &TaskPool<A>, worker: &mut Worker<L, A>) -> Option<Task>
    requires { worker.old.owner.pool ≡ pool.now }
    ensures place { worker.new.place ≡ worker.old.place }
    ensures pool { worker.new.owner.pool ≡ worker.old.owner.pool }
    ensures thieves { worker.new.thieves ≡ worker.old.thieves }
{
    for _i in 0..BATCH_SIZE {
        if worker.claimant.batch.len() <= 1 {
            break;
        }
        let task = worker.claimant.batch.pop()?;
        if let Err(NoRoom { task }) = pool.push(&mut worker.owner, task) {
            return Some(task);
        }
    }
    worker.claimant.batch.pop()
}

/// A task that the worker has: one that it has claimed, or of its own pool.
fn own_task<L: Ledger, A: Allocator>(pool: &TaskPool<A>, worker: &mut Worker<L, A>) -> Option<Task>
    requires { worker.old.owner.pool ≡ pool.now }
    ensures place { worker.new.place ≡ worker.old.place }
    ensures pool { worker.new.owner.pool ≡ worker.old.owner.pool }
    ensures thieves { worker.new.thieves ≡ worker.old.thieves }
{
    match worker.claimant.batch.pop() {
        Some(task) => Some(task),
        None => pool.pop(&mut worker.owner),
    }
}

/// The next task: one that the worker has, or of another's pool, or of the store. It may wait there.
fn next_task<L: Ledger, A: Allocator, H, R: Wait>(
    shared: &Shared<'_, L, A, H, R>,
    pool: &TaskPool<A>,
    worker: &mut Worker<L, A>,
) -> Option<Task>
    requires ready { IsPlacedWorker shared.now.pools.now worker.old }
    requires own { worker.old.owner.pool ≡ pool.now }
    ensures ready { IsPlacedWorker shared.now.pools.now worker.new }
    ensures own { worker.new.owner.pool ≡ worker.old.owner.pool }
{
    if let Some(task) = own_task(pool, worker) {
        return Some(task);
    }
    if let Some(task) = steal_any(shared.pools, worker.thieves.as_mut_slice()) {
        return Some(task);
    }
    shared.store.take(shared.rt)
}

/// Seals an AND gate's task together with the kept one, or keeps it. Returns whether there was room for them.
#[inline(always)]
fn seal_and<A: Allocator>(
    sealed: &mut Vec<Sealed, A>,
    kept: &mut Option<Task>,
    task: Task,
) -> bool {
    let Some(other) = kept.take() else {
        *kept = Some(task);
        return true;
    };
    let (one, two) = Sealed::make_two(other, task);
    sealed.push(one).is_ok() && sealed.push(two).is_ok()
}

/// Seals a task, or keeps one of an AND gate until it can be sealed together with another. Returns whether there was
/// room for what was sealed.
#[inline(always)]
fn seal<A: Allocator>(sealed: &mut Vec<Sealed, A>, kept: &mut Option<Task>, task: Task) -> bool {
    if task.operation.is_and() {
        seal_and(sealed, kept, task)
    } else {
        sealed.push(Sealed::make(task)).is_ok()
    }
}

/// Seals a task, and then others that the worker has, up to [`MAX_SEALED`] in all. Returns whether there was room for
/// them.
fn seal_some<L: Ledger, A: Allocator, H: Gatehouse>(
    pool: &TaskPool<A>,
    worker: &mut Worker<L, A>,
    observer: &H,
    task: Task,
) -> bool
    requires { worker.old.owner.pool ≡ pool.now }
    ensures place { worker.new.place ≡ worker.old.place }
    ensures pool { worker.new.owner.pool ≡ worker.old.owner.pool }
    ensures thieves { worker.new.thieves ≡ worker.old.thieves }
{
    let mut kept = None;
    let mut next = Some(task);
    for i in 1..=MAX_SEALED {
        let Some(task) = next else {
            break;
        };
        observer.before(worker.number, task.gate);
        if !seal(&mut worker.sealed, &mut kept, task) {
            return false;
        }
        next = if i < MAX_SEALED {
            own_task(pool, worker)
        } else {
            None
        };
    }
    match kept {
        Some(task) => worker.sealed.push(Sealed::make(task)).is_ok(),
        None => true,
    }
}

/// Works until nothing is left to do, or until the store is stopped. Where a task can't be handed in it stops the
/// store.
pub(crate) fn work<L: Ledger, A: Allocator, H: Gatehouse, R: Wait>(
    shared: &Shared<'_, L, A, H, R>,
    worker: &mut Worker<L, A>,
)
    requires { IsPlacedWorker shared.now.pools.now worker.old }
{
    let (rt, store) = (shared.rt, shared.store);
    let Some(pool) = shared.pools.get(worker.place) else {
        return;
    };
    let mut kept: Option<Task> = None;
    for _ in rt.forever() {
        if kept.is_none() {
            kept = next_task(shared, pool, worker);
        }
        let Some(task) = kept else {
            return;
        };
        worker.sealed.clear();
        if !seal_some(pool, worker, shared.observer, task) {
            store.stop(rt);
            return;
        }
        let sealed = worker.sealed.as_slice();
        let handed_in = store.hand_in_all(rt, sealed, &mut worker.claimant);
        if handed_in.is_err() {
            store.stop(rt);
            return;
        }
        kept = share(pool, worker);
    }
}
