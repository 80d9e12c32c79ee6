//! Garbling on many threads.

ghost use Rattle.std.specs.Prelude.{◌≡◌, All, IfOk, IfSome};
ghost use Rattle.gc_half.specs.Garbling.{IsGarbled};
ghost use Rattle.gc_store.specs.Account.{IsForStore};
ghost use Rattle.gc_work.specs.Places.{IsPlacedWorker};
ghost use Rattle.gc_work.specs.WorkFault.{JudgesWorkers};

use crate::fault::{WorkFault, check_workers};
use crate::pool::TaskPool;
use crate::sweep::sweep;
use crate::worker::{Shared, Worker, work};
use crate::workers::{Workers, open_workers};
use gc_circuit::{Circuit, Memory};
use gc_half::{Garbling, garble_one_thread};
use gc_label::Seed;
use gc_store::{Opening, SharedStore, Store};
use gc_workers::{Crew, Gatehouse, MAX_WORKERS, Way, report_all, way_of};
use std::alloc::Allocator;
use std::marker::Brand;
use std::sync::Wait;
use std::sync::ledger::{Blank, Ledger};
use std::thread;
use std::thread::Threads;

/// The room of a worker's pool, in tasks.
const POOL_CAPACITY: u32 = 1024;

/// The garbling of a circuit under a seed, with this number of workers. The calling thread is worker 0.
///
/// [`way_of`] says how it is made. [`Way::Alone`]: worker 0 garbles, and no thread is started. [`Way::Together`]: they
/// share a store, from which each takes any gate that is ready. Where a thread can't be started, the calling thread
/// does its work too. Each gate is reported to the observer before it is sealed.
///
/// It refuses 0 workers and more than [`MAX_WORKERS`]. Memory is the other fault.
pub fn garble<
    A: Allocator + Copy + Send + Sync,
    C: Allocator + Sync,
    H: Gatehouse + Sync,
    R: Threads + Wait + Sync,
>(
    rt: &R,
    alloc: A,
    circuit: &Circuit<C>,
    seed: &Seed,
    workers: u32,
    observer: &H,
) -> Result<Garbling<A>, WorkFault>
    ensures garbled { IfOk result (IsGarbled circuit.now seed.now) }
    ensures workers { JudgesWorkers workers result }
{
    check_workers(workers)?;
    match way_of(alloc, circuit, workers)? {
        Way::Alone => Ok(garble_alone(alloc, circuit, seed, observer)?),
        Way::Together => {
            let ledger = Blank::new(u64::from(MAX_WORKERS));
            let crew = Crew {
                rt,
                alloc,
                workers,
                observer,
            };
            Ok(garble_together::<Brand, A, C, H, R>(&crew, ledger, circuit, seed)?)
        }
    }
}

/// The garbling, made by several workers over a store that begins the ledger. Where they don't finish it, the calling
/// thread garbles alone.
fn garble_together<
    L: Ledger + Send + Sync,
    A: Allocator + Copy + Send + Sync,
    C: Allocator + Sync,
    H: Gatehouse + Sync,
    R: Threads + Wait + Sync,
>(
    crew: &Crew<'_, A, H, R>,
    ledger: Blank,
    circuit: &Circuit<C>,
    seed: &Seed,
) -> Result<Garbling<A>, Memory>
    requires { IsForStore L.name L.parts ledger }
    ensures { IfOk result (IsGarbled circuit.now seed.now) }
{
    let alloc = crew.alloc;
    let opening = Opening {
        circuit,
        seed: *seed,
        threads: crew.workers,
    };
    let store = Store::<L, A>::open_by(crew.rt, alloc, ledger, &opening)?;
    let store = work_together(crew, store, circuit.gates().min(POOL_CAPACITY))?;
    match garbling_of(store, circuit, seed) {
        Some(garbling) => Ok(garbling),
        None => garble_alone(alloc, circuit, seed, crew.observer),
    }
}

/// What a store has garbled, where that is all and it is the store of this circuit and seed.
fn garbling_of<L: Ledger, A: Allocator, C: Allocator>(
    store: Store<L, A>,
    circuit: &Circuit<C>,
    seed: &Seed,
) -> Option<Garbling<A>>
    ensures { IfSome result (IsGarbled circuit.now seed.now) }
{
    if store.is_for(circuit, seed) {
        if let Ok(garbling) = store.into_garbling() {
            return Some(garbling);
        }
    }
    None
}

/// The calling thread garbles alone, as worker 0.
fn garble_alone<A: Allocator + Copy, C: Allocator, H: Gatehouse>(
    alloc: A,
    circuit: &Circuit<C>,
    seed: &Seed,
    observer: &H,
) -> Result<Garbling<A>, Memory>
    ensures { IfOk result (IsGarbled circuit.now seed.now) }
{
    report_all(observer, circuit.gates());
    garble_one_thread(alloc, circuit, seed)
}

/// Lets the workers finish what they can, each with a pool of this capacity; then worker 0 goes on by itself. Returns
/// the store.
fn work_together<
    L: Ledger + Send + Sync,
    A: Allocator + Copy + Send + Sync,
    H: Gatehouse + Sync,
    R: Threads + Wait + Sync,
>(crew: &Crew<'_, A, H, R>, mut store: Store<L, A>, capacity: u32) -> Result<Store<L, A>, Memory> {
    let Workers { pools, mut workers } = open_workers(
        crew.alloc,
        &mut store,
        crew.workers,
        capacity,
    )?;
    let store = SharedStore::new(store);
    let shared = Shared {
        rt: crew.rt,
        store: &store,
        pools: pools.as_slice(),
        observer: crew.observer,
    };
    run_all(&shared, workers.as_mut_slice());
    let mut store = store.into_store();
    if let Some(mut last) = workers.pop() {
        sweep(&mut store, &mut last.claimant.tally, crew.observer);
    }
    Ok(store)
}

/// Runs all workers, the last one on the calling thread and each other in a thread of its own, where one can be
/// started.
fn run_all<
    L: Ledger + Send + Sync,
    A: Allocator + Send + Sync,
    H: Gatehouse + Sync,
    R: Threads + Wait + Sync,
>(shared: &Shared<'_, L, A, H, R>, workers: &mut [Worker<L, A>])
    requires { All (λ w. IsPlacedWorker shared.now.pools.now w) workers.old }
{
    let count = workers.len().max(1);
    thread::for_each_mut(
        shared.rt,
        workers,
        count,
        &|_i: usize, worker: &mut Worker<L, A>|
            requires { IsPlacedWorker shared.now.pools.now worker.now }
        { work(shared, worker) },
    );
}
