//! Tests of the line that explains a fault: where a growth is refused it may be missing or name no place, and after
//! that it is as it should be.

use crate::files::XOR_FILES;
use crate::jobs::{Trial, order};
use gc_circuit::{ReadFault, ValueFault};
use gc_command::Fault;
use gc_disk::Reread;
use gc_explain::Ended;
use gc_file::FileFault;
use gc_fixtures::MemFiles;
use gc_fixtures::circuits::SEED;
use gc_fixtures::compare::equal;
use gc_fixtures::refusing::Refusing;
use gc_job::{BindFault, EvalFault};
use gc_order::Order;
use gc_work::WorkFault;
use std::alloc::{Allocator, Global};
use std::sync::Wait;
use std::test::Fail;
use std::thread::Threads;

/// Orders over the files of a job and a file that is none, and the lines that explain their faults.
static ORDERS: [(&[&str], &str); 11] = [
    (
        &["check", "bad"],
        "halfgates: bad:1:3: expected a number from 0 to 4294967295\n",
    ),
    (
        &["plain", "c.txt", "1", "2"],
        "halfgates: value 1, counted from 0, has a character that is neither 0 nor 1\n",
    ),
    (
        &["eval", "c.txt", "bad", "0", "1"],
        "halfgates: bad: byte 0: a garbled file begins with HGARBLE1 or HGARBLE2\n",
    ),
    (
        &["audit", "c.txt", SEED, "g", "0", "bad"],
        "halfgates: bad: byte 0: a label file begins with HLABELS1\n",
    ),
    (
        &["eval", "c.txt", "g", "0", "0"],
        "halfgates: 0: it is a second file for value 0, counted from 0\n",
    ),
    (
        &["jobs", "c.txt", "bad list"],
        "halfgates: no_file: the file can't be read: there is no such file or directory \
(line 2 of bad list)\n",
    ),
    (
        &["jobs", "c.txt", "bad garbled"],
        "halfgates: bad: byte 0: a garbled file begins with HGARBLE1 or HGARBLE2 \
(line 3 of bad garbled)\n",
    ),
    (
        &["jobs", "c.txt", "bad labels"],
        "halfgates: bad: byte 0: a label file begins with HLABELS1 (line 2 of bad labels)\n",
    ),
    (
        &["jobs", "c.txt", "bad job"],
        "halfgates: 0: it is a second file for value 0, counted from 0 (line 2 of bad job)\n",
    ),
    (
        &["run", "c.txt", "0", "1", "0"],
        "halfgates: the length of the seed is 1, and 64 hexadecimal digits are expected\n",
    ),
    (
        &["garble", "c.txt", SEED, "c.txt"],
        "halfgates: c.txt: the file can't be written: it is a name of standard output or of \
the circuit's file\n",
    ),
];

/// An order, by its arguments, that has ended by a fault over these files, and the line that explains the fault.
#[derive(Clone, Copy)]
struct Explained<'a, 'f> {
    alloc: Global,
    words: &'a [&'a str],
    files: &'a MemFiles<'f>,
    fault: Fault,
    line: &'a str,
}

impl Explained<'_, '_> {
    /// Whether the fault of this order is explained by the line.
    fn is_told<A: Allocator + Copy>(self, memory: A, order: &Order) -> bool {
        let ended = Ended {
            alloc: memory,
            order,
            files: self.files,
            opened: self.files.log().opened(),
            printing: None,
        };
        match ended.explain(self.fault) {
            Some(told) => told.as_slice() == self.line.as_bytes(),
            None => false,
        }
    }

    /// The same of the order of the arguments.
    fn is_explained<A: Allocator + Copy>(self, memory: A) -> Result<bool, Fail> {
        let order = order(self.alloc, self.words)?;
        Ok(self.is_told(memory, &order))
    }

    /// Asserts that the fault is explained by the line, also after each of its growths was refused.
    fn assert(self) -> Result<(), Fail> {
        for growth in 1..100 {
            let heap = Refusing::nth(self.alloc, growth);
            let is_right = self.is_explained(&heap)?;
            if heap.refused() == 0 {
                return equal((self.line, is_right), (self.line, true));
            }
            let is_right = self.is_explained(&heap)?;
            equal((self.line, is_right), (self.line, true))?;
        }
        Err(Fail::new("each run met a refusal"))
    }
}

/// Asserts that the order of these arguments has a fault, which is explained by this line.
fn assert_ends<R: Threads + Wait + Sync>(
    rt: &R,
    alloc: Global,
    words: &[&str],
    line: &str,
) -> Result<(), Fail> {
    let mut files = MemFiles::new(alloc, &XOR_FILES);
    let fault = Trial { rt, alloc, words }.fault(alloc, &mut files)?;
    let explained = Explained {
        alloc,
        words,
        files: &files,
        fault: fault.ok_or("there is no fault")?,
        line,
    };
    explained.assert()
}

#[test]
fn each_growth_refused(rt: HostRuntime) -> Result<(), Fail> {
    for (words, line) in &ORDERS {
        assert_ends(&rt, rt.alloc(), words, line)?;
    }
    Ok(())
}

/// Each fault of memory has the same line.
#[test]
fn want_of_memory(rt: HostRuntime) -> Result<(), Fail> {
    let files = MemFiles::new(rt.alloc(), &[]);
    for fault in [
        Fault::Circuit(ReadFault::Memory),
        Fault::Value(ValueFault::Memory),
        Fault::Garbling(WorkFault::Memory),
        Fault::File(FileFault::Memory),
        Fault::Binding(BindFault::Memory),
        Fault::Evaluation(EvalFault::Memory),
        Fault::Memory,
    ] {
        let explained = Explained {
            alloc: rt.alloc(),
            words: &["check", "c.txt"],
            files: &files,
            fault,
            line: "halfgates: memory ran out\n",
        };
        explained.assert()?;
    }
    Ok(())
}
