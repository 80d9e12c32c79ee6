//! The times that parts take.

use crate::measures::{Jobs, Workload};
use crate::part::Part;
use anyhow::{Result, anyhow};
use gc_circuit::Circuit;
use std::rt::Clock;
use std::sync::Wait;
use std::thread::Threads;
use std::time::{Duration, Instant};

/// A part, and the time of its fastest run so far.
#[derive(Drop)]
pub struct Timing {
    name: String,
    part: Part,
    nanoseconds: u64,
}

impl Timing {
    /// The part of this name, which was not run yet.
    pub fn of(name: String) -> Result<Timing> {
        let part = Part::named(name.as_str()).ok_or_else(|| anyhow!("no part has this name"))?;
        Ok(Timing {
            name,
            part,
            nanoseconds: u64::MAX,
        })
    }
}

/// Runs the parts one after another, and all of them this many times.
pub fn time_parts<R: Threads + Wait + Clock + Sync>(
    rt: &R,
    workload: &Workload,
    repeats: u32,
    timings: &mut [Timing],
) -> Result<()> {
    let listed = timings.iter().map(|it| it.part.jobs_listed());
    let jobs = workload.jobs(listed.max().unwrap_or(0))?;
    for _ in 0..repeats {
        time_once(rt, workload, &jobs, timings)?;
    }
    Ok(())
}

/// Runs each part once.
fn time_once<R: Threads + Wait + Clock + Sync>(
    rt: &R,
    workload: &Workload,
    jobs: &Jobs,
    timings: &mut [Timing],
) -> Result<()> {
    for timing in timings {
        let start = Instant::now(rt)?;
        workload.run(rt, timing.part, jobs)?;
        let took = nanoseconds_of(start.elapsed(rt)?);
        timing.nanoseconds = timing.nanoseconds.min(took);
    }
    Ok(())
}

/// A time in nanoseconds.
fn nanoseconds_of(time: Duration) -> u64 {
    let seconds = time.as_secs().saturating_mul(1_000_000_000);
    seconds.saturating_add(u64::from(time.subsec_nanos()))
}

/// Prints the numbers of the circuit, and each part with its time.
pub fn print_times(rt: &impl Print, circuit: &Circuit, timings: &[Timing]) -> Result<()> {
    println!(rt; "gates {}", circuit.gates())?;
    println!(rt; "and {}", circuit.and_count())?;
    for timing in timings {
        println!(rt; "{} {}", timing.name, timing.nanoseconds)?;
    }
    Ok(())
}
