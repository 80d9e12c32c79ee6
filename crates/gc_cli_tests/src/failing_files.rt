//! Tests of files that fail: each call of them in turn, and sources and sinks in mid-stream.

use crate::files::XOR_FILES;
use crate::jobs::Trial;
use gc_command::Fault;
use gc_fixtures::circuits::SEED;
use gc_fixtures::compare::equal;
use gc_fixtures::{Limits, MemFiles};
use std::sync::Wait;
use std::test::Fail;
use std::thread::Threads;

const READ: Fault = Fault::CannotRead;

const WRITE: Fault = Fault::CannotWrite;

/// Orders, and the fault where each of their calls fails. Those of `order`, `garble` and `deal` are to read the
/// circuit, to create the file and to keep it; those of `eval` and `audit` to read the circuit, to open the garbled
/// file and to read each label file; and those of `jobs` to read the circuit, the list, the garbled file and each label
/// file.
static ORDERS: [(&[&str], &[Fault]); 12] = [
    (&["run", "c.txt", SEED, "0", "1"], &[READ]),
    (&["plain", "c.txt", "0", "1"], &[READ]),
    (&["check", "c.txt"], &[READ]),
    (&["locate", "c.txt"], &[READ]),
    (&["stats", "c.txt"], &[READ]),
    (&["labels", "c.txt", SEED, "0", "1"], &[READ]),
    (&["order", "c.txt", "out"], &[READ, WRITE, WRITE]),
    (&["garble", "c.txt", SEED, "out"], &[READ, WRITE, WRITE]),
    (
        &["deal", "c.txt", SEED, "1", "0", "out"],
        &[READ, WRITE, WRITE],
    ),
    (&["eval", "c.txt", "g", "0", "1"], &[READ; 4]),
    (&["jobs", "c.txt", "list"], &[READ; 5]),
    (&["audit", "c.txt", SEED, "g", "0", "1"], &[READ; 4]),
];

impl<R: Threads + Wait + Sync> Trial<'_, R> {
    /// Asserts that the order has this fault, or none, over files with these limits, and leaves no sink open.
    fn assert_ends(&self, limits: Limits, fault: Option<Fault>) -> Result<(), Fail> {
        let mut files = MemFiles::limited(self.alloc, &XOR_FILES, limits);
        let found = self.fault(self.alloc, &mut files)?;
        equal(
            (self.words, found, files.open_sinks()),
            (self.words, fault, 0),
        )
    }

    /// Asserts that the order has these faults where each of its calls fails in turn, and none where all of them go
    /// well.
    fn assert_calls(&self, faults: &[Fault]) -> Result<(), Fail> {
        let mut calls = 0;
        for fault in faults {
            self.assert_ends(calls_alone(calls), Some(*fault))?;
            calls = calls.saturating_add(1);
        }
        self.assert_ends(calls_alone(calls), None)
    }

    /// Asserts that the order has this fault where a source or a sink fails after each number of bytes that isn't
    /// enough, and none after that.
    fn assert_streams(&self, enough: usize, fault: Fault) -> Result<(), Fail> {
        for bytes in 0..enough {
            self.assert_ends(bytes_alone(bytes, fault), Some(fault))?;
        }
        self.assert_ends(bytes_alone(enough, fault), None)
    }
}

/// Files of which this many calls go well.
fn calls_alone(calls: u32) -> Limits {
    Limits {
        calls,
        ..Limits::NONE
    }
}

#[test]
fn each_call_in_turn(rt: HostRuntime) -> Result<(), Fail> {
    let (rt, alloc) = (&rt, rt.alloc());
    for (words, faults) in &ORDERS {
        Trial { rt, alloc, words }.assert_calls(faults)?;
    }
    Ok(())
}

/// Orders with a source or a sink, how many of its bytes must go well, and the fault where fewer do. Of a garbled file
/// of 113 bytes a source is asked for one more, which it lacks.
static STREAMS: [(&[&str], usize, Fault); 5] = [
    (&["eval", "c.txt", "g", "0", "1"], 114, READ),
    (&["audit", "c.txt", SEED, "g", "0", "1"], 114, READ),
    (&["garble", "c.txt", SEED, "out"], 113, WRITE),
    (&["deal", "c.txt", SEED, "1", "0", "out"], 32, WRITE),
    (&["order", "c.txt", "out"], 31, WRITE),
];

/// Files of which this many bytes of each source go well, or of each sink where the fault is one of writing.
fn bytes_alone(bytes: usize, fault: Fault) -> Limits {
    let is_of_sinks = fault == WRITE;
    Limits {
        given: (!is_of_sinks).then_some(bytes),
        taken: is_of_sinks.then_some(bytes),
        ..Limits::NONE
    }
}

#[test]
fn in_mid_stream(rt: HostRuntime) -> Result<(), Fail> {
    let (rt, alloc) = (&rt, rt.alloc());
    for (words, enough, fault) in &STREAMS {
        Trial { rt, alloc, words }.assert_streams(*enough, *fault)?;
    }
    Ok(())
}
