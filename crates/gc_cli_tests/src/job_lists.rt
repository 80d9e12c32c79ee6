//! Tests of lists of jobs, of which the files of some lines are read before their garbled files are checked.

use crate::files::XOR_FILES;
use crate::jobs::Trial;
use gc_command::Fault;
use gc_disk::Reread;
use gc_file::FileFault;
use gc_fixtures::MemFiles;
use gc_fixtures::compare::equal;
use gc_fixtures::refusing::Refusing;
use std::alloc::Global;
use std::sync::Wait;
use std::test::Fail;
use std::thread::Threads;

/// Circuits, and how many files are opened: the circuit, the list, and the files of the first line, two lines or eight,
/// which are read at a time. The more wires the circuit has, the more lines. Of a line alone the garbled file is
/// checked before its label file is opened.
static CIRCUITS: [(&[u8], u64); 3] = [
    (b"1 3\n2 1 1\n1 1\n2 1 0 1 2 XOR", 3),
    (b"1 5\n2 2 2\n1 1\n2 1 0 2 4 XOR", 6),
    (b"1 15\n2 7 7\n1 1\n2 1 0 7 14 XOR", 18),
];

/// Nine lines, each with an empty garbled file and a label file without labels.
const LIST: &[u8] = b"e l\ne l\ne l\ne l\ne l\ne l\ne l\ne l\ne l\n";

const NO_LABELS: &[u8] = b"HLABELS1\0\0\0\0\0\0\0\0";

/// The fault of the list over this circuit, and how many files were opened.
fn opened<R: Threads + Wait + Sync>(
    rt: &R,
    alloc: Global,
    circuit: &[u8],
) -> Result<(Option<Fault>, u64), Fail> {
    let held = [
        ("c.txt", circuit),
        ("list", LIST),
        ("e", b""),
        ("l", NO_LABELS),
    ];
    let mut files = MemFiles::new(alloc, &held);
    let words = &["jobs", "c.txt", "list"];
    let trial = Trial { rt, alloc, words };
    let fault = trial.fault(alloc, &mut files)?;
    Ok((fault, files.log().opened()))
}

/// No file is opened after those of the lines that are read at a time.
#[test]
fn lines_at_a_time(rt: HostRuntime) -> Result<(), Fail> {
    let fault = Some(Fault::File(FileFault::Truncated));
    for (circuit, count) in &CIRCUITS {
        let found = opened(&rt, rt.alloc(), circuit)?;
        equal(found, (fault, *count))?;
    }
    Ok(())
}

/// Whether the fault is the list's first, or one of memory.
fn is_first_or_memory(fault: Option<Fault>) -> bool {
    match fault {
        Some(Fault::File(FileFault::BadTrailer)) => true,
        Some(fault) => [13, 36, 46, 52].contains(&fault.code()),
        None => false,
    }
}

impl<R: Threads + Wait + Sync> Trial<'_, R> {
    /// The fault of the order where the growth of this number is refused, and whether it was.
    fn fault_without(&self, growth: u64) -> Result<(bool, Option<Fault>), Fail> {
        let heap = Refusing::nth(self.alloc, growth);
        let mut files = MemFiles::new(self.alloc, &XOR_FILES);
        let fault = self.fault(&heap, &mut files)?;
        Ok((heap.refused() != 0, fault))
    }

    /// Asserts that with each growth refused the list has its first fault, or one of memory.
    fn assert_first(&self) -> Result<(), Fail> {
        for growth in 1..1000 {
            let (is_refused, fault) = self.fault_without(growth)?;
            if !is_refused {
                return equal(fault, Some(Fault::File(FileFault::BadTrailer)));
            }
            equal((fault, is_first_or_memory(fault)), (fault, true))?;
        }
        Err(Fail::new("each run met a refusal"))
    }
}

#[test]
fn each_growth_refused_before_a_fault(rt: HostRuntime) -> Result<(), Fail> {
    let (rt, alloc, words) = (&rt, rt.alloc(), &["jobs", "c.txt", "two bad"]);
    Trial { rt, alloc, words }.assert_first()
}
