//! A test of banks that are given on: workers that share a list of jobs step the gates of the third one, whose bank
//! served the first.

use crate::fixtures::job_of;
use crate::jobs::together;
use gc_bank::evaluate_jobs;
use gc_circuit::Circuit;
use gc_file::Version;
use gc_fixtures::circuits::many_ands;
use gc_job::Job;
use gc_workers::Gatehouse;
use std::alloc::Global;
use std::sync::atomic::{AtomicU64, Ordering};
use std::test::Fail;

/// The number of gates of the circuit, of workers, and of gates from one worker's first gate to that of the next one.
const GATES: u32 = 2000;

const WORKERS: usize = 4;

const SHARE: u32 = 500;

/// Holds each worker at the first gate of its share, with which it begins each round, until all have come there as
/// often as it has: so all of them go through each round. It counts the reports of each worker.
#[derive(Drop)]
struct Rounds {
    // By worker.
    reports: [AtomicU64; WORKERS],
    begun: [AtomicU64; WORKERS],
}

/// Each worker's count, of nothing yet.
fn zeros() -> [AtomicU64; WORKERS] {
    [
        AtomicU64::new(0),
        AtomicU64::new(0),
        AtomicU64::new(0),
        AtomicU64::new(0),
    ]
}

impl Rounds {
    /// Whether each worker has come to the first gate of its share this often.
    fn have_all_begun(&self, times: u64) -> bool {
        self.begun
            .iter()
            .all(|begun| begun.load(Ordering::SeqCst) >= times)
    }

    /// Waits until all have begun a round this often, for at most a billion turns.
    fn wait(&self, times: u64) {
        for _turn in 0..1_000_000_000u64 {
            if self.have_all_begun(times) {
                return;
            }
        }
    }

    /// The most reports of a worker.
    fn most(&self) -> u64 {
        let reports = self.reports.iter().map(|it| it.load(Ordering::SeqCst));
        reports.max().unwrap_or(0)
    }
}

impl Gatehouse for Rounds {
    fn before(&self, worker: u32, gate: u32) {
        let place = worker as usize;
        if let (Some(reports), Some(begun)) = (self.reports.get(place), self.begun.get(place)) {
            reports.fetch_add(1, Ordering::SeqCst);
            if Some(gate) == worker.checked_mul(SHARE) {
                let before = begun.fetch_add(1, Ordering::SeqCst);
                self.wait(before.saturating_add(1));
            }
        }
    }
}

/// Three jobs on ones.
fn three_jobs<'c>(alloc: Global, circuit: &'c Circuit) -> Result<Vec<Job<'c>>, Fail> {
    let ones = "1".repeat(alloc, GATES as usize)?;
    let mut jobs = Vec::new(alloc);
    for _job in 0..3 {
        jobs.push(job_of(alloc, circuit, Version::Two, &[ones.as_str(); 2])?)?;
    }
    Ok(jobs)
}

/// Of three jobs on independent AND gates the third is evaluated in the bank of the first, which was given on: a worker
/// reports each gate in each round that it goes through, and hardly any gate twice, and one reports all gates three
/// times.
#[test]
fn a_bank_that_is_given_on_is_used(rt: HostRuntime) -> Result<(), Fail> {
    let alloc = rt.alloc();
    let text = many_ands(alloc, GATES)?;
    let circuit = Circuit::read(alloc, text.as_bytes())?;
    let jobs = three_jobs(alloc, &circuit)?;
    let observer = Rounds {
        reports: zeros(),
        begun: zeros(),
    };
    let given = together(&jobs).ok_or("the jobs are on one circuit")?;
    evaluate_jobs(&rt, alloc, given, WORKERS as u32, &observer)?;
    assert!(rt; observer.most() >= 3 * u64::from(GATES));
    Ok(())
}
