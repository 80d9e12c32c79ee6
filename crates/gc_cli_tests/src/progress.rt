//! Tests of the steps that commands report to an observer.

use crate::files::XOR_FILES;
use crate::jobs::order;
use gc_cli::carry_out;
use gc_command::{Context, Progress, Stage};
use gc_fixtures::MemFiles;
use gc_fixtures::circuits::SEED;
use gc_fixtures::compare::equal;
use std::alloc::Global;
use std::sync::Wait;
use std::sync::atomic::{AtomicUsize, Ordering};
use std::test::Fail;
use std::thread::Threads;

/// The steps of an order's work.
type Steps = &'static [&'static str];

/// Orders, and the steps of their work.
static ORDERS: [(&[&str], Steps); 5] = [
    (
        &["run", "c.txt", SEED, "1", "0"],
        &[
            "1 of 3: reading the circuit",
            "2 of 3: garbling 1 gates",
            "3 of 3: evaluating 1 gates",
        ],
    ),
    (
        &["garble", "c.txt", SEED, "out"],
        &[
            "1 of 3: reading the circuit",
            "2 of 3: garbling 1 gates",
            "3 of 3: writing the garbled file",
        ],
    ),
    (
        &["eval", "c.txt", "g", "0", "1"],
        &[
            "1 of 3: reading the circuit",
            "2 of 3: reading the files",
            "3 of 3: evaluating 1 gates",
        ],
    ),
    (&["jobs", "c.txt", "nine"], NINE_JOBS),
    (
        &["audit", "c.txt", SEED, "g", "0", "1"],
        &[
            "1 of 3: reading the circuit",
            "2 of 3: reading the files",
            "3 of 3: garbling 1 gates",
        ],
    ),
];

/// The steps of a list of nine jobs, of which the files of eight are read before they are checked.
const NINE_JOBS: Steps = &[
    "1 of 3: reading the circuit",
    "2 of 3: reading job 1 of 9",
    "2 of 3: reading job 2 of 9",
    "2 of 3: reading job 3 of 9",
    "2 of 3: reading job 4 of 9",
    "2 of 3: reading job 5 of 9",
    "2 of 3: reading job 6 of 9",
    "2 of 3: reading job 7 of 9",
    "2 of 3: reading job 8 of 9",
    "2 of 3: reading job 9 of 9",
    "3 of 3: evaluating 9 jobs",
];

/// An observer that counts the steps that begin, and those of them that are due.
#[derive(Drop)]
struct Observer {
    alloc: Global,
    due: Steps,
    begun: AtomicUsize,
    right: AtomicUsize,
}

impl Progress for Observer {
    fn begin(&self, step: u32, steps: u32, stage: Stage) {
        let place = self.begun.fetch_add(1, Ordering::SeqCst);
        if let Ok(line) = format!(in self.alloc; "{step} of {steps}: {stage}") {
            if self.due.get(place).is_some_and(|due| *due == line.as_str()) {
                self.right.fetch_add(1, Ordering::SeqCst);
            }
        }
    }

    fn end(&self) {}
}

/// Asserts that the order's work has these steps.
fn assert_steps<R: Threads + Wait + Sync>(
    rt: &R,
    alloc: Global,
    words: &[&str],
    due: Steps,
) -> Result<(), Fail> {
    let progress = &Observer {
        alloc,
        due,
        begun: AtomicUsize::new(0),
        right: AtomicUsize::new(0),
    };
    let context = Context {
        rt,
        alloc,
        progress,
    };
    let order = order(alloc, words)?;
    carry_out(&context, &order, &mut MemFiles::new(alloc, &XOR_FILES))?;
    let begun = progress.begun.load(Ordering::SeqCst);
    let right = progress.right.load(Ordering::SeqCst);
    equal((words, begun, right), (words, due.len(), due.len()))
}

#[test]
fn each_step_in_turn(rt: HostRuntime) -> Result<(), Fail> {
    for (words, steps) in &ORDERS {
        assert_steps(&rt, rt.alloc(), words, steps)?;
    }
    Ok(())
}
