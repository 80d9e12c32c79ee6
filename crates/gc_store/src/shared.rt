//! A store that threads share.

ghost use Rattle.std.specs.Prelude.{◌≡◌, IsFalse};
ghost use Rattle.gc_store.specs.Shared.{ClaimsUnless, FinishesAll, FinishesUpTo, HandsIn, HandsInAll, HandsOver, Looks, NoneReady, Wakes};

use crate::batch::Batch;
use crate::refusal::Refused;
use crate::store::Store;
use crate::tally::Tally;
use crate::task::{Sealed, Task};
use crossbeam_utils::CachePadded;
use std::alloc::{Allocator, Global};
use std::hint::spin_loop;
use std::sync::ledger::Ledger;
use std::sync::{Condvar, Mutex, MutexGuard, Wait};

/// How often a thread tries for the lock before it sleeps: waking costs more than a section takes.
const TRIES: u32 = 200;

/// How long a thread pauses between two tries, in turns of a loop: less than a section takes.
const PAUSE: u32 = 10;

/// What the lock guards: a store, whether it was stopped, and how many threads sleep because no task is ready and were
/// not woken yet.
#[derive(Drop)]
struct LockedStore<L: Ledger, A: Allocator> {
    store: Store<L, A>,
    stopped: bool,
    sleeping: u32,
}

/// A store that threads share. What a call does to it, it does in one critical section, so it finds the store as it is
/// between two steps. [`SharedStore::take`] looks in one, and in a further one each time that it was woken.
///
/// No call allocates. Which task a call gives, and what it found the store to be, no contract can say: other threads
/// change it.
#[derive(Drop)]
pub struct SharedStore<L: Ledger, A: Allocator = Global> {
    // Padded, so that threads that try for the lock leave the store's own cache lines alone.
    locked: Mutex<CachePadded<LockedStore<L, A>>>,
    moved: Condvar,
}

/// One who hands in and claims: its tally, and the batch that its new tasks go into.
#[derive(Drop)]
pub struct Claimant<L: Ledger> {
    pub tally: Tally<L>,
    pub batch: Batch,
}

/// What a thread that wants a task finds.
enum Finding {
    /// A task.
    Task(Task),
    /// No gate is ready, but one is claimed.
    Later,
    /// Nothing is left to do, or the store was stopped.
    Nothing,
}

/// Which sleeping threads a hand-in notifies.
enum Notify {
    /// A gate may be ready, so one thread that sleeps.
    One,
    /// No gate is claimed, so all threads that sleep.
    All,
    /// No thread.
    None,
}

impl<L: Ledger, A: Allocator> LockedStore<L, A> {
    /// Looks for a task.
    fn look(&mut self) -> Finding
        ensures looks { Looks self.old.stopped self.old.store.content result
            self.new.store.content }
        ensures stopped { self.new.stopped ≡ self.old.stopped }
        ensures sleeping { self.new.sleeping ≡ self.old.sleeping }
    {
        if self.stopped {
            return Finding::Nothing;
        }
        match self.store.claim() {
            Some(task) => Finding::Task(task),
            None if self.store.has_claimed() => Finding::Later,
            None => Finding::Nothing,
        }
    }

    /// Claims into the batch from the gate `from` on, unless the store was stopped. Returns whether ready gates may be
    /// left.
    fn claim_from(&mut self, from: u32, batch: &mut Batch) -> bool
        ensures claims { ClaimsUnless self.old.stopped self.old.store.content batch.old
            self.new.store.content batch.new }
        ensures none { IsFalse result → NoneReady self.new.store.content }
        ensures stopped { self.new.stopped ≡ self.old.stopped }
        ensures sleeping { self.new.sleeping ≡ self.old.sleeping }
    {
        if self.stopped {
            return true;
        }
        self.store.claim_from(from, batch);
        batch.is_full()
    }

    /// Finishes sealed tasks one after another, until one is refused.
    fn finish_all(&mut self, sealed: &[Sealed], tally: &mut Tally<L>) -> Result<(), Refused>
        ensures tally { FinishesAll sealed.now tally.old result tally.new }
        ensures content { FinishesUpTo self.old.store.content sealed.now result
            self.new.store.content }
        ensures stopped { self.new.stopped ≡ self.old.stopped }
        ensures sleeping { self.new.sleeping ≡ self.old.sleeping }
    {
        for task in sealed {
            if let Err(refused) = self.store.finish(*task, tally) {
                return Err(refused);
            }
        }
        Ok(())
    }

    /// Finishes sealed tasks, and claims into the batch where none is refused, from the first of their gates on.
    /// Returns whether the store is now complete, and whom to wake.
    fn hand_in_all(
        &mut self,
        sealed: &[Sealed],
        tally: &mut Tally<L>,
        batch: &mut Batch,
    ) -> (Result<bool, Refused>, Notify)
        ensures lent { HandsInAll sealed.now tally.old batch.old result.0 tally.new batch.new }
        ensures content { HandsOver self.old.stopped self.old.store.content sealed.now
            batch.old result.0
            self.new.store.content batch.new }
        ensures wakes { Wakes self.new.store.content self.old.sleeping result.1 self.new.sleeping }
        ensures stopped { self.new.stopped ≡ self.old.stopped }
    {
        if let Err(refused) = self.finish_all(sealed, tally) {
            return (Err(refused), self.to_wake(true));
        }
        let from = sealed.first().map_or(0, |first| first.task().gate);
        let may_be_ready = self.claim_from(from, batch);
        (Ok(self.store.is_complete()), self.to_wake(may_be_ready))
    }

    /// Whom to wake, and counts them as awake.
    fn to_wake(&mut self, may_be_ready: bool) -> Notify
        requires { IsFalse may_be_ready → NoneReady self.old.store.content }
        ensures wakes { Wakes self.new.store.content self.old.sleeping result self.new.sleeping }
        ensures same { self.new.store ≡ self.old.store }
        ensures stopped { self.new.stopped ≡ self.old.stopped }
    {
        if self.sleeping == 0 {
            Notify::None
        } else if !self.store.has_claimed() {
            self.sleeping = 0;
            Notify::All
        } else if may_be_ready {
            self.sleeping -= 1;
            Notify::One
        } else {
            Notify::None
        }
    }
}

impl<L: Ledger, A: Allocator> SharedStore<L, A> {
    /// Shares a store.
    pub fn new(store: Store<L, A>) -> SharedStore<L, A> {
        SharedStore {
            locked: Mutex::new(CachePadded::new(LockedStore {
                store,
                stopped: false,
                sleeping: 0,
            })),
            moved: Condvar::new(),
        }
    }

    /// Takes the lock: it tries for a while before it sleeps.
    fn enter<R: Wait>(&self, rt: &R) -> MutexGuard<'_, CachePadded<LockedStore<L, A>>> {
        for _try in 0..TRIES {
            if let Some(locked) = self.locked.try_lock() {
                return locked;
            }
            for _turn in 0..PAUSE {
                spin_loop();
            }
        }
        self.locked.lock(rt)
    }

    /// Gives the lock back, and wakes threads that sleep because no task is ready.
    fn leave(&self, locked: MutexGuard<'_, CachePadded<LockedStore<L, A>>>, notify: Notify) {
        drop(locked);
        match notify {
            Notify::One => self.moved.notify_one(),
            Notify::All => self.moved.notify_all(),
            Notify::None => {}
        }
    }

    /// Claims a ready gate, and returns its task. It waits while no gate is ready and some gate is claimed. None says
    /// that nothing is left to do, or that the store was stopped.
    pub fn take<R: Wait>(&self, rt: &R) -> Option<Task> {
        let mut locked = self.enter(rt);
        for _ in rt.forever() {
            match locked.look() {
                Finding::Task(task) => return Some(task),
                Finding::Nothing => return None,
                Finding::Later => {}
            }
            // The thread that wakes it takes it from the count.
            locked.sleeping = locked.sleeping.saturating_add(1);
            locked = self.moved.wait(rt, locked);
        }
        unreachable!()
    }

    /// Takes a sealed task back and raises the tally by one, and claims gates into the batch; all in one critical
    /// section. Returns whether the store is now complete. After [`SharedStore::stop`] it claims nothing.
    ///
    /// It refuses what [`Store::finish`] refuses, and then changes nothing.
    pub fn hand_in(
        &self,
        rt: &impl Wait,
        sealed: Sealed,
        tally: &mut Tally<L>,
        batch: &mut Batch,
    ) -> Result<bool, Refused>
        ensures { HandsIn sealed tally.old batch.old result tally.new batch.new }
    {
        let mut locked = self.enter(rt);
        let (handed_in, notify) = locked.hand_in_all(&[sealed], tally, batch);
        self.leave(locked, notify);
        handed_in
    }

    /// Takes sealed tasks back one after another, each as [`SharedStore::hand_in`] does, and then claims gates into the
    /// batch; all in one critical section. Returns whether the store is now complete.
    ///
    /// It ends at the first that is refused, and then claims nothing. Those before it are finished and counted, and
    /// those after it are not.
    pub fn hand_in_all(
        &self,
        rt: &impl Wait,
        sealed: &[Sealed],
        claimant: &mut Claimant<L>,
    ) -> Result<bool, Refused>
        ensures { HandsInAll sealed.now claimant.old.tally claimant.old.batch result
            claimant.new.tally claimant.new.batch }
    {
        let Claimant { tally, batch } = claimant;
        let mut locked = self.enter(rt);
        let (handed_in, notify) = locked.hand_in_all(sealed, tally, batch);
        self.leave(locked, notify);
        handed_in
    }

    /// Ends the work: from now on no task is given out, and what is sealed is still taken back.
    pub fn stop(&self, rt: &impl Wait) {
        let mut locked = self.enter(rt);
        locked.stopped = true;
        locked.sleeping = 0;
        drop(locked);
        self.moved.notify_all();
    }

    /// The store, which no thread shares any more.
    pub fn into_store(self) -> Store<L, A> {
        let SharedStore { locked, moved: _ } = self;
        let LockedStore {
            store,
            stopped: _,
            sleeping: _,
        } = locked.into_inner().into_inner();
        store
    }
}
