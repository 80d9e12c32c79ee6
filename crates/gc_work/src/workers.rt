//! The workers, each with what it has of its own.

ghost use Rattle.std.specs.Prelude.{◌≡◌, ◌++◌, ◌∷◌, [], All, IfOk, OnOk, length};
ghost use Rattle.gc_work.specs.Pool.{AllOf};
ghost use Rattle.gc_work.specs.Places.{AreOwners, AreAllPlaced, IsPlacedWorker};

use crate::pool::{Owner, TaskPool, Thief};
use crate::steal::PlacedThief;
use crate::worker::{MAX_SEALED, Worker};
use gc_circuit::Memory;
use gc_store::{Batch, Claimant, Store};
use std::alloc::Allocator;
use std::sync::ledger::Ledger;

/// An owner, and the place of its pool among all pools.
#[derive(Drop)]
struct PlacedOwner<A: Allocator> {
    place: usize,
    owner: Owner<A>,
}

/// The pools, their owners, and for each worker its thieves at the others' pools.
#[derive(Drop)]
struct Opened<A: Allocator> {
    pools: Vec<TaskPool<A>, A>,
    owners: Vec<PlacedOwner<A>, A>,
    rows: Vec<Vec<PlacedThief<A>, A>, A>,
}

/// The pools, and the workers, from the last to worker 0.
#[derive(Drop)]
pub(crate) struct Workers<L: Ledger, A: Allocator> {
    pub pools: Vec<TaskPool<A>, A>,
    pub workers: Vec<Worker<L, A>, A>,
}

/// Deals the thieves of the pool that comes after `pools`, to all workers but its own.
fn spread<A: Allocator>(
    rows: &mut [Vec<PlacedThief<A>, A>],
    thieves: Vec<Thief<A>, A>,
    pool: &TaskPool<A>,
    pools: &[TaskPool<A>],
) -> Result<(), Memory>
    requires rows { AreAllPlaced pools.now rows.old }
    requires thieves { AllOf pool.now thieves.items }
    ensures { OnOk result (AreAllPlaced (pools.now ++ pool.now ∷ []) rows.new) }
{
    let target = pools.len();
    let mut place = 0;
    for thief in thieves {
        if place == target {
            place += 1;
        }
        if place < rows.len() {
            rows[place].push(PlacedThief { target, thief })?;
            place += 1;
        }
    }
    Ok(())
}

/// As many empty rows as there are workers.
fn empty_rows<A: Allocator + Copy>(
    alloc: A,
    workers: u32,
) -> Result<Vec<Vec<PlacedThief<A>, A>, A>, Memory>
    ensures { IfOk result (λ rows. AreAllPlaced [] rows.items) }
{
    let mut rows = Vec::with_capacity(alloc, workers as usize)?;
    for _i in 0..workers {
        rows.push(Vec::with_capacity(alloc, workers as usize)?)?;
    }
    Ok(rows)
}

/// Opens a pool of this capacity for each worker.
fn open_pools<A: Allocator + Copy>(
    alloc: A,
    workers: u32,
    capacity: u32,
) -> Result<Opened<A>, Memory>
    ensures owners { IfOk result (λ o. AreOwners o.pools.items o.owners.items) }
    ensures rows { IfOk result (λ o. AreAllPlaced o.pools.items o.rows.items) }
{
    let mut pools = Vec::with_capacity(alloc, workers as usize)?;
    let mut owners = Vec::with_capacity(alloc, workers as usize)?;
    let mut rows = empty_rows(alloc, workers)?;
    for _i in 0..workers {
        let (pool, owner, thieves) = TaskPool::open(alloc, capacity, workers - 1)?;
        let place = pools.len();
        spread(rows.as_mut_slice(), thieves, &pool, pools.as_slice())?;
        pools.push(pool)?;
        owners.push(PlacedOwner { place, owner })?;
    }
    Ok(Opened {
        pools,
        owners,
        rows,
    })
}

/// A worker for each of these owners, with its thieves, from the last to worker 0. They are fewer where the store has
/// no more tallies.
fn workers_of<L: Ledger, A: Allocator + Copy>(
    alloc: A,
    store: &mut Store<L, A>,
    opened: Opened<A>,
) -> Result<Workers<L, A>, Memory>
    requires owners { AreOwners opened.pools.items opened.owners.items }
    requires rows { AreAllPlaced opened.pools.items opened.rows.items }
    ensures { IfOk result (λ r. All (λ w. IsPlacedWorker r.pools.items w) r.workers.items) }
{
    let Opened {
        pools,
        mut owners,
        mut rows,
    } = opened;
    let mut workers = Vec::with_capacity(alloc, owners.len())?;
    while let Some(placed) = owners.pop() {
        let PlacedOwner { place, owner } = placed;
        let number = u32::try_from(owners.len()).unwrap_or(0);
        let Some(thieves) = rows.pop() else {
            break;
        };
        let Some(tally) = store.tally() else {
            break;
        };
        let sealed = Vec::with_capacity(alloc, MAX_SEALED)?;
        workers.push(Worker {
            place,
            number,
            claimant: Claimant {
                tally,
                batch: Batch::new(),
            },
            owner,
            thieves,
            sealed,
        })?;
    }
    Ok(Workers { pools, workers })
}

/// This many workers, from the last to worker 0, and a pool of this capacity for each. The workers are fewer where the
/// store has no more tallies.
pub(crate) fn open_workers<L: Ledger, A: Allocator + Copy>(
    alloc: A,
    store: &mut Store<L, A>,
    count: u32,
    capacity: u32,
) -> Result<Workers<L, A>, Memory>
    ensures { IfOk result (λ r. All (λ w. IsPlacedWorker r.pools.items w) r.workers.items) }
{
    let opened = open_pools(alloc, count, capacity)?;
    workers_of(alloc, store, opened)
}
