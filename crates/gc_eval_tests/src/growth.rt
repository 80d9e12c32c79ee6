//! Each growth refused in turn of the calls that bind jobs and evaluate them.

use crate::fixtures::on_job;
use gc_circuit::Circuit;
use gc_file::{Version, read_garbled};
use gc_fixtures::circuits::AND;
use gc_fixtures::compare::equal;
use gc_fixtures::files::{and_file, label_files};
use gc_fixtures::growths::{Returned, answer_of, runs_refused};
use gc_fixtures::refusing::Refusing;
use gc_job::{BindFault, EvalFault, Job, evaluate};
use std::alloc::{Allocator, Global};
use std::test::Fail;

/// The growths of reading the garbled file come first, and then the one of binding.
#[test]
fn binding(rt: HostRuntime) -> Result<(), Fail> {
    let alloc = rt.alloc();
    let circuit = Circuit::read(alloc, AND.as_bytes())?;
    let file = and_file(alloc, Version::Two)?;
    let labels = label_files(alloc, &circuit, &["1", "1"])?;
    let refused = runs_refused(alloc, |heap| {
        let Ok(garbled) = read_garbled(heap, &file) else {
            return Returned::Memory;
        };
        answer_of(
            Job::bind(heap, &circuit, garbled, &labels),
            BindFault::Memory,
        )
    });
    equal(refused, Ok(5))
}

/// One growth for the labels, one for those of the output wires, and one for the output bits.
#[test]
fn evaluating(rt: HostRuntime) -> Result<(), Fail> {
    on_job(rt.alloc(), AND, &["1", "1"], |job| {
        let refused = runs_refused(
            rt.alloc(),
            |heap| answer_of(evaluate(heap, job), EvalFault::Memory),
        );
        equal(refused, Ok(3))
    })
}

/// The growths of decoding the label of the one output of a job of one gate.
fn decoded(alloc: Global, job: &Job) -> Result<(), Fail> {
    if job.circuit().gates() != 1 || job.circuit().input_wires() != 2 {
        return Err(Fail::new("the job is of an AND gate"));
    }
    let label = job.active(0, job.input(0), job.input(1));
    let refused = runs_refused(alloc, |heap| {
        if job.circuit().output_wires() != 1 {
            return Returned::Other;
        }
        answer_of(job.decode(heap, &[label]), EvalFault::Memory)
    });
    equal(refused, Ok(1))
}

/// One growth for the output bits.
#[test]
fn decoding(rt: HostRuntime) -> Result<(), Fail> {
    on_job(rt.alloc(), AND, &["1", "1"], |job| decoded(rt.alloc(), job))
}

/// Which gates of a job of an AND gate set wires 1 and 2, and the colour of what the gate gives.
fn queried<A: Allocator>(job: &Job<'_, A>) -> Option<(Option<u32>, Option<u32>, bool)> {
    let bound = job.circuit();
    if bound.gates() != 1 || bound.wires() != 3 || bound.input_wires() != 2 {
        return None;
    }
    let label = job.active(0, job.input(0), job.input(1));
    Some((job.setter(1), job.setter(2), label.colour()))
}

/// No query of a bound job allocates. The output is 1, and its decode bit too.
#[test]
fn a_bound_job_grows_nothing(rt: HostRuntime) -> Result<(), Fail> {
    let alloc = rt.alloc();
    let heap = Refusing::never(alloc);
    let circuit = Circuit::read(alloc, AND.as_bytes())?;
    let labels = label_files(alloc, &circuit, &["1", "1"])?;
    let garbled = read_garbled(&heap, &and_file(alloc, Version::Two)?)?;
    let job = Job::bind(&heap, &circuit, garbled, &labels)?;
    let growths = heap.growths();
    let found = queried(&job);
    equal(
        (found, heap.growths()),
        (Some((None, Some(0), false)), growths),
    )
}
