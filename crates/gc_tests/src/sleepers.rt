//! Tests of threads that sleep at a shared store, since no gate is ready and one is claimed: whom a hand-in and a stop
//! wake, and what those who are woken find.

ghost use Rattle.gc_store.specs.Account.{IsForStore};

use crate::fixtures::{ledger, pause, read};
use gc_circuit::Circuit;
use gc_fixtures::compare::equal;
use gc_fixtures::files::zero_seed;
use gc_store::{BATCH_SIZE, Batch, Sealed, SharedStore, Store, Tally, Task};
use std::alloc::Global;
use std::marker::Brand;
use std::sync::Wait;
use std::sync::atomic::{AtomicBool, AtomicU64, Ordering};
use std::sync::ledger::{Blank, Ledger};
use std::test::Fail;
use std::thread;
use std::thread::{Threads, yield_now};

/// How many threads sleep.
const SLEEPERS: usize = 3;

/// The circuit of a gate, and this many gates that read the wire that it sets.
fn fan(alloc: Global, readers: u32) -> Result<Circuit, Fail> {
    let n = u64::from(readers);
    let mut text = format!(in alloc; "{} {}\n1 1\n1 1\n1 1 0 1 INV\n", n + 1, n + 2)?;
    for reader in 0..n {
        text.push_str(format!(in alloc; "2 1 1 0 {} AND\n", reader + 2)?.as_str())?;
    }
    read(alloc, text.as_str())
}

/// Waits until a count is at least this high, with a bound. Returns whether it is.
fn reaches(count: &AtomicU64, wanted: u64) -> bool {
    for _turn in 0..20_000_000u64 {
        if count.load(Ordering::SeqCst) >= wanted {
            return true;
        }
        yield_now();
    }
    false
}

/// What a thread that slept is given.
#[derive(Clone, Copy, PartialEq, Eq, Debug)]
enum Given {
    /// A task, which it hands in.
    Task,
    /// No task, after all gates.
    NoneAtLast,
    /// No task, though gates are left.
    NoneBefore,
}

/// The store of a fan, whose first gate is claimed, and what its threads tell each other.
#[derive(Drop)]
struct Fixture<L: Ledger> {
    shared: SharedStore<L>,
    first: Task,
    // How many threads are about to ask for a task.
    asking: AtomicU64,
    // How many were given one.
    given: AtomicU64,
    // Whether the last gate is about to be handed in.
    is_last: AtomicBool,
    // How many threads were given what they should be, the one that works among them.
    right: AtomicU64,
}

impl<L: Ledger> Fixture<L> {
    /// Asks for a task, and hands in what is given.
    fn ask(&self, rt: &impl Wait, tally: &mut Tally<L>) -> Given {
        self.asking.fetch_add(1, Ordering::SeqCst);
        match self.shared.take(rt) {
            Some(task) => {
                self.given.fetch_add(1, Ordering::SeqCst);
                let sealed = Sealed::make(task);
                let _ = self.shared.hand_in(rt, sealed, tally, &mut Batch::new());
                Given::Task
            }
            None if self.is_last.load(Ordering::SeqCst) => Given::NoneAtLast,
            None => Given::NoneBefore,
        }
    }

    /// Hands in the first gate, which makes more gates ready than the batch holds. Returns whether each thread that
    /// slept is given a task.
    fn wakes_each(&self, rt: &impl Wait, tally: &mut Tally<L>) -> bool {
        let first = Sealed::make(self.first);
        let answer = self.shared.hand_in(rt, first, tally, &mut Batch::new());
        answer == Ok(false) && reaches(&self.given, SLEEPERS as u64)
    }

    /// Hands in the first gate, after which the batch has all others: a thread is woken, and finds no gate that is
    /// ready. Then the others are handed in. Returns whether the last one completes the store.
    fn leaves_none(&self, rt: &impl Wait, tally: &mut Tally<L>) -> bool {
        let mut batch = Batch::new();
        let first = Sealed::make(self.first);
        let mut answer = self.shared.hand_in(rt, first, tally, &mut batch);
        pause();
        for _gate in 0..BATCH_SIZE {
            let Some(task) = batch.pop() else {
                return false;
            };
            self.is_last.store(batch.is_empty(), Ordering::SeqCst);
            answer = self
                .shared
                .hand_in(rt, Sealed::make(task), tally, &mut batch);
        }
        answer == Ok(true)
    }

    /// What the thread that works does once the others sleep, by what they should be given. It stops the store if they
    /// should be given nothing before the last gate, or if something goes wrong. Returns whether nothing did.
    fn work(&self, rt: &impl Wait, tally: &mut Tally<L>, given: Given) -> bool {
        let all_ask = reaches(&self.asking, SLEEPERS as u64);
        pause();
        let works = match given {
            Given::Task => self.wakes_each(rt, tally),
            Given::NoneAtLast => self.leaves_none(rt, tally),
            Given::NoneBefore => true,
        };
        if given == Given::NoneBefore || !(all_ask && works) {
            self.shared.stop(rt);
        }
        all_ask && works
    }
}

/// A store of this circuit whose first gate is claimed, and a tally for each of its threads.
fn open<L: Ledger>(
    alloc: Global,
    ledger: Blank,
    circuit: Circuit,
) -> Option<(Fixture<L>, Vec<Tally<L>>)>
    requires { IsForStore L.name L.parts ledger }
{
    let mut store = Store::<L, Global>::open(alloc, ledger, circuit, zero_seed()).ok()?;
    let first = store.claim()?;
    let mut tallies = Vec::new(alloc);
    for _thread in 0..SLEEPERS + 1 {
        tallies.push(store.tally()?).ok()?;
    }
    let fixture = Fixture {
        shared: SharedStore::new(store),
        first,
        asking: AtomicU64::new(0),
        given: AtomicU64::new(0),
        is_last: AtomicBool::new(false),
        right: AtomicU64::new(0),
    };
    Some((fixture, tallies))
}

/// Three threads sleep at the store of a fan, while another thread works there. The case is how many readers the fan
/// has, and what each of the three should be given. Returns whether nothing goes wrong, and each is given that.
fn are_given<L: Ledger + Send + Sync, R: Threads + Wait + Sync>(
    rt: &R,
    alloc: Global,
    ledger: Blank,
    case: (u32, Given),
) -> Result<bool, Fail>
    requires { IsForStore L.name L.parts ledger }
{
    let (readers, given) = case;
    let opened = open::<L>(alloc, ledger, fan(alloc, readers)?);
    let (fixture, mut tallies) = opened.ok_or("a gate is ready")?;
    thread::for_each_mut(
        rt,
        tallies.as_mut_slice(),
        SLEEPERS + 1,
        &|i: usize, tally: &mut Tally<L>| {
            let is_right = if i == 0 {
                fixture.work(rt, tally, given)
            } else {
                fixture.ask(rt, tally) == given
            };
            fixture
                .right
                .fetch_add(u64::from(is_right), Ordering::SeqCst);
        },
    );
    Ok(fixture.right.load(Ordering::SeqCst) == SLEEPERS as u64 + 1)
}

/// One hand-in that makes more gates ready than a batch holds wakes one of three threads that sleep, and what that one
/// hands in wakes the next, until all are woken. A thread that is woken and finds no gate that is ready sleeps on: it
/// is given none before the last gate, which wakes all. A stop wakes all.
#[test]
fn each_sleeper_is_woken(rt: HostRuntime) -> Result<(), Fail> {
    for (readers, given) in [
        (64, Given::Task),
        (16, Given::NoneAtLast),
        (16, Given::NoneBefore),
    ] {
        for _time in 0..10 {
            let case = (readers, given);
            let found = are_given::<Brand, HostRuntime>(&rt, rt.alloc(), ledger(), case)?;
            equal((given, found), (given, true))?;
        }
    }
    Ok(())
}
