//! Jobs of circuits under the seed of 32 zero bytes, and what an evaluation returns.

ghost use Rattle.std.specs.Prelude.{◌≡◌, length, IfOk};

use gc_circuit::Circuit;
use gc_file::{Version, read_garbled};
use gc_fixtures::circuits::FULL_ADDER;
use gc_fixtures::files::{label_files, write};
use gc_job::Job;
use std::alloc::Global;
use std::test::Fail;

/// The job of a circuit's file in this version on these values.
pub(crate) fn job_of<'c>(
    alloc: Global,
    circuit: &'c Circuit,
    version: Version,
    values: &[&str],
) -> Result<Job<'c>, Fail> {
    let file = write(alloc, circuit, version, None)?.bytes;
    let labels = label_files(alloc, circuit, values)?;
    Ok(Job::bind(alloc, circuit, read_garbled(alloc, &file)?, &labels)?)
}

/// Calls a test's function with the job of a circuit's file on these values. So no test has a circuit and a job of its
/// own, which the proof drops on each path.
pub(crate) fn on_job<F: Fn(&Job) -> Result<(), Fail>>(
    alloc: Global,
    text: &str,
    values: &[&str],
    test: F,
) -> Result<(), Fail>
    requires { F.IsAlwaysCallable test }
{
    let circuit = Circuit::read(alloc, text.as_bytes())?;
    let job = job_of(alloc, &circuit, Version::Two, values)?;
    test(&job)
}

/// The job of a circuit's file on zeros. The circuit has at most three input values, of one width.
fn job_on_zeros<'c>(alloc: Global, circuit: &'c Circuit) -> Result<Job<'c>, Fail> {
    let width = circuit.input_widths().first().copied().unwrap_or(0);
    let zeros = "0".repeat(alloc, width as usize)?;
    job_of(alloc, circuit, Version::Two, &[zeros.as_str(); 3])
}

/// The same as [`on_job`], on zeros.
pub(crate) fn on_zeros<F: Fn(&Job) -> Result<(), Fail>>(
    alloc: Global,
    text: &str,
    test: F,
) -> Result<(), Fail>
    requires { F.IsAlwaysCallable test }
{
    let circuit = Circuit::read(alloc, text.as_bytes())?;
    let job = job_on_zeros(alloc, &circuit)?;
    test(&job)
}

/// A job of each version on the same values.
fn one_of_each_version<'c>(
    alloc: Global,
    circuit: &'c Circuit,
    values: &[&str],
) -> Result<Vec<Job<'c>>, Fail> {
    let mut jobs = Vec::new(alloc);
    for version in [Version::One, Version::Two] {
        jobs.push(job_of(alloc, circuit, version, values)?)?;
    }
    Ok(jobs)
}

/// Calls a test's function with a job of each version on this value for each of two inputs.
pub(crate) fn on_two_jobs<F: Fn(&[Job]) -> Result<(), Fail>>(
    alloc: Global,
    text: &str,
    value: &str,
    test: F,
) -> Result<(), Fail>
    requires { F.IsAlwaysCallable test }
{
    let circuit = Circuit::read(alloc, text.as_bytes())?;
    let jobs = one_of_each_version(alloc, &circuit, &[value, value])?;
    test(&jobs)
}

/// Three jobs on the full adder.
fn three_jobs<'c>(alloc: Global, circuit: &'c Circuit) -> Result<Vec<Job<'c>>, Fail>
    ensures { IfOk result (λ jobs. length jobs.items ≡ 3) }
{
    let mut jobs = Vec::new(alloc);
    jobs.push(job_of(alloc, circuit, Version::Two, &["1", "0", "1"])?)?;
    jobs.push(job_of(alloc, circuit, Version::One, &["1", "1", "1"])?)?;
    jobs.push(job_of(alloc, circuit, Version::Two, &["0", "0", "1"])?)?;
    Ok(jobs)
}

/// Calls a test's function with three jobs on the full adder.
pub(crate) fn on_three_jobs<F: Fn(&[Job]) -> Result<(), Fail>>(
    alloc: Global,
    test: F,
) -> Result<(), Fail>
    requires { F.IsAlwaysCallable test }
{
    let circuit = Circuit::read(alloc, FULL_ADDER.as_bytes())?;
    let jobs = three_jobs(alloc, &circuit)?;
    test(&jobs)
}
