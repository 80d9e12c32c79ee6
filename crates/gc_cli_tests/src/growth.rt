//! Each growth of a command refused in turn: the fault's code says which part of the work lacked memory.

use crate::files::ADDER_FILES;
use crate::jobs::Trial;
use gc_fixtures::MemFiles;
use gc_fixtures::circuits::SEED;
use gc_fixtures::compare::equal;
use gc_fixtures::refusing::Refusing;
use std::sync::Wait;
use std::test::Fail;
use std::thread::Threads;

/// A part of the work: the code of its Memory fault, and how many growths it has.
type Part = (u32, u64);

const FILE: Part = (52, 1);

/// The widths of either side, the gates, and which wires are set.
const CIRCUIT: Part = (13, 4);

const FIRST: [Part; 2] = [FILE, CIRCUIT];

/// The list of values, and three values.
const VALUES: [Part; 2] = [(52, 1), (13, 3)];

const ONE_VALUE: Part = (13, 1);

const PLAIN_EVALUATION: Part = (13, 2);

/// The zero labels, and the rows.
const GARBLING: Part = (23, 2);

/// The zero labels: the rows take the places of the file's.
const GARBLING_IN_PLACE: Part = (23, 1);

/// The bytes before the trailer, and the trailer.
const GARBLED_FILE: Part = (52, 2);

/// Rows, decode bits and entries, and the header before them.
const GARBLED: Part = (36, 4);

const LIST_OF_LABELS: Part = (52, 1);

const LABELS: Part = (36, 1);

const THREE_LABEL_FILES: [Part; 7] = [LIST_OF_LABELS, FILE, LABELS, FILE, LABELS, FILE, LABELS];

const OUTPUT_LINE: Part = (52, 1);

/// The input labels, the labels of all wires, those of the outputs, and the output bits; and the output line.
const EVALUATION: [Part; 2] = [(46, 4), OUTPUT_LINE];

/// 121 bytes, in room for 8, 16, 32, 64 and 128.
const CHECK_LINES: Part = (52, 5);

/// The lines of a list, or the words of a line: where room for several is refused, there is room for fewer.
const PARTS: Part = (0, 1);

const LIST_OF_JOBS: Part = (52, 1);

/// The input labels.
const BINDING: Part = (46, 1);

/// The list of the jobs that one line names.
const JOB: Part = (52, 1);

const WORDS: Part = (52, 1);

/// 9 bytes, in room taken at once.
const NO_FAULT: Part = (52, 1);

/// A depth and a mark for each wire.
const STATS: Part = (13, 2);

/// 98 bytes, in room for 8, 16, 32, 64 and 128.
const STATS_LINES: Part = (52, 5);

/// A depth for each wire, a rank for each gate, a place for each rank, the gates, and the widths of either side.
const ORDERING: Part = (13, 6);

/// 87 bytes, in room for 8, 16, 32 and all.
const TEXT: Part = (13, 4);

/// The bits of all wires.
const WIRE_BITS: Part = (13, 1);

/// A flag for each wire.
const LABEL_LINES: Part = (52, 1);

/// 102 bytes, in room for 16, 32, 64 and 128, and the bit of each of three label files.
const AUDIT_LINES: Part = (52, 7);

/// A place for the bits of each job, and the labels of all wires, those of the outputs and the output bits, without
/// which the job is evaluated once more; and the bits of all jobs.
const JOBS_EVALUATION: [Part; 2] = [(0, 4), (46, 1)];

/// Orders over the full adder, and one over a circuit whose last gate is AND, and the parts of their work. What a sink
/// takes is the files' own memory. Two threads read the files of `eval`, in no order: `refusals` has it.
static ORDERS: [(&[&str], &[&[Part]]); 12] = [
    (
        &["run", "c.txt", SEED, "1", "0", "1"],
        &[
            &FIRST,
            &VALUES,
            &[GARBLING, GARBLED_FILE, GARBLED],
            &THREE_LABEL_FILES,
            &EVALUATION,
        ],
    ),
    (
        &["plain", "c.txt", "1", "0", "1"],
        &[&FIRST, &VALUES, &[PLAIN_EVALUATION, OUTPUT_LINE]],
    ),
    (&["check", "c.txt"], &[&FIRST, &[CHECK_LINES]]),
    (
        &["order", "c.txt", "out"],
        &[&FIRST, &[ORDERING, TEXT, OUTPUT_LINE]],
    ),
    (
        &["garble", "c.txt", SEED, "out"],
        &[&FIRST, &[GARBLING, OUTPUT_LINE]],
    ),
    (
        &["garble", "late.txt", SEED, "out"],
        &[&FIRST, &[GARBLING, OUTPUT_LINE]],
    ),
    (
        &["deal", "c.txt", SEED, "2", "1", "out"],
        &[&FIRST, &[ONE_VALUE, OUTPUT_LINE]],
    ),
    (
        &["jobs", "c.txt", "list"],
        &[
            &FIRST,
            &[FILE, PARTS, LIST_OF_JOBS, JOB, PARTS, WORDS, GARBLED],
            &THREE_LABEL_FILES,
            &[BINDING],
            &JOBS_EVALUATION,
            &[OUTPUT_LINE],
        ],
    ),
    (&["locate", "c.txt"], &[&FIRST, &[NO_FAULT]]),
    (&["stats", "c.txt"], &[&FIRST, &[STATS, STATS_LINES]]),
    (
        &["labels", "c.txt", SEED, "--from", "7", "1", "0", "1"],
        &[&FIRST, &VALUES, &[GARBLING, WIRE_BITS, LABEL_LINES]],
    ),
    (
        &["audit", "c.txt", SEED, "g", "0", "1", "2"],
        &[
            &FIRST,
            &[GARBLED],
            &THREE_LABEL_FILES,
            &[GARBLING_IN_PLACE, AUDIT_LINES],
        ],
    ),
];

impl<R: Threads + Wait + Sync> Trial<'_, R> {
    /// The code of the fault of the order with the growth of this number refused: 0 where it did without that growth,
    /// and None where no growth was refused.
    fn code_of_refusal(&self, growth: u64) -> Result<Option<u32>, Fail> {
        let heap = Refusing::nth(self.alloc, growth);
        let mut files = MemFiles::new(self.alloc, &ADDER_FILES);
        let fault = self.fault_of_refusal(&heap, &mut files)?;
        let code = fault.map_or(0, |fault| fault.code());
        Ok((heap.refused() != 0).then_some(code))
    }

    /// Asserts that growth 1, 2, 3, .. of the order has the code of its part, and that there is none after the last
    /// part.
    fn assert_codes(&self, parts: &[&[Part]]) -> Result<(), Fail> {
        for growth in 1..64 {
            let wanted = code_in(parts, growth);
            let found = self.code_of_refusal(growth)?;
            equal((self.words, growth, found), (self.words, growth, wanted))?;
            if wanted.is_none() {
                return Ok(());
            }
        }
        Err(Fail::new("each run met a refusal"))
    }
}

/// The code of the growth of this number, counted from 1, in the parts of these lists: None after the last one.
fn code_in(lists: &[&[Part]], growth: u64) -> Option<u32> {
    let mut left = growth;
    for parts in lists {
        for (code, growths) in *parts {
            if left <= *growths {
                return Some(*code);
            }
            left = left.saturating_sub(*growths);
        }
    }
    None
}

/// The memory of each part of the work has its own fault.
#[test]
fn each_growth_refused(rt: HostRuntime) -> Result<(), Fail> {
    let (rt, alloc) = (&rt, rt.alloc());
    for (words, parts) in &ORDERS {
        Trial { rt, alloc, words }.assert_codes(parts)?;
    }
    Ok(())
}
