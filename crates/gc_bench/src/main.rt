//! Times the parts of the program on a circuit file, for the scripts in `bench/`.
#![tactic(auto)]

mod jobs;
mod measures;
mod part;
mod timing;

use anyhow::{Result, anyhow};
use measures::Workload;
use std::io::Read;
use std::{env, fs};
use timing::{Timing, print_times, time_parts};

/// `gc_bench FILE REPEATS PART..` runs the parts on a circuit one after another, and all of them REPEATS times, so that
/// a slow spell of the machine slows all parts alike. It prints the numbers of gates and AND gates, and each part with
/// its fastest run in nanoseconds. A part on a list of jobs gets a thousand. Without arguments it does nothing.
fn main(rt: HostRuntime) -> Result<()> {
    let mut words = env::args(&rt)?.skip(1);
    let Some(file) = words.next() else {
        return Ok(());
    };
    let repeats = words.next().ok_or_else(|| anyhow!("REPEATS is missing"))?;
    let repeats = repeats.as_str().parse::<u32>()?;
    if repeats == 0 {
        return Err(anyhow!("REPEATS is at least 1"));
    }
    let mut timings = Vec::new(rt.alloc());
    for name in words {
        timings.push(Timing::of(name)?)?;
    }
    let mut text = Vec::new(rt.alloc());
    fs::open(&rt, file.as_str())?.read_to_end(&mut text)?;
    let workload = Workload::new(rt.alloc(), text)?;
    time_parts(&rt, &workload, repeats, &mut timings)?;
    print_times(&rt, &workload.circuit, &timings)
}
