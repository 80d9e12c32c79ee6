//! Each growth refused in turn of `eval`, of commands of two workers, and of one over a list, over files whose sinks
//! use the same memory. After a refusal the same order over the same files is carried out.

use crate::files::XOR_FILES;
use crate::jobs::Trial;
use gc_circuit::Circuit;
use gc_command::Fault;
use gc_file::Version;
use gc_fixtures::MemFiles;
use gc_fixtures::circuits::{SEED, and_chains};
use gc_fixtures::compare::equal;
use gc_fixtures::files::{label_file, write};
use gc_fixtures::refusing::Refusing;
use std::alloc::Global;
use std::sync::Wait;
use std::test::Fail;
use std::thread::Threads;

/// Orders over 32 chains of 32 AND gates, which two workers can share, and how many growths are of the file that each
/// writes: the sink takes 32,881 bytes in three, or 528 in one, and then the file has a name.
static ORDERS: [(&[&str], u32); 5] = [
    (&["garble", "c.txt", SEED, "out", "--workers", "2"], 4),
    (&["deal", "c.txt", SEED, "0", "xffffffff", "out"], 2),
    (&["eval", "c.txt", "g", "l"], 0),
    (&["eval", "c.txt", "g", "l", "--workers", "2"], 0),
    (&["jobs", "c.txt", "list", "--workers", "2"], 0),
];

/// The faults of memory: those of circuits and values, garbling, files that are read, evaluation, and the program.
const MEMORY: [u32; 5] = [13, 23, 36, 46, 52];

impl<R: Threads + Wait + Sync> Trial<'_, R> {
    /// The fault of the order where the growth of this number is refused, and whether it was. After a fault the same
    /// order has none.
    fn fault_at(
        &self,
        files: &[(&str, &[u8])],
        growth: u64,
    ) -> Result<(bool, Option<Fault>), Fail> {
        let heap = Refusing::nth(self.alloc, growth);
        let mut held = MemFiles::new(&heap, files);
        let fault = self.fault_of_refusal(&heap, &mut held)?;
        let is_refused = heap.refused() != 0;
        if fault.is_some() {
            let again = self.fault(&heap, &mut held)?;
            equal((fault, again), (fault, None))?;
        }
        Ok((is_refused, fault))
    }

    /// Carries out the order with growth 1, 2, 3, .. refused, until a run meets no refusal. It returns how many runs
    /// couldn't write the file; all others had no fault, or one of memory.
    fn unwritten_runs(&self, files: &[(&str, &[u8])]) -> Result<u32, Fail> {
        let mut unwritten = 0u32;
        for growth in 1..1000 {
            match self.fault_at(files, growth)? {
                (false, _) => return Ok(unwritten),
                (true, None) => {}
                (true, Some(Fault::CannotWrite)) => unwritten = unwritten.saturating_add(1),
                (true, Some(fault)) => of_memory(fault)?,
            }
        }
        Err(Fail::new("each run met a refusal"))
    }
}

/// Fails where a fault isn't one of memory.
fn of_memory(fault: Fault) -> Result<(), Fail> {
    equal((fault, MEMORY.contains(&fault.code())), (fault, true))
}

/// Asserts of each order that as many runs couldn't write the file as there are growths of it.
fn assert_orders<R: Threads + Wait + Sync>(
    rt: &R,
    alloc: Global,
    files: &[(&str, &[u8])],
) -> Result<(), Fail> {
    for (words, growths) in &ORDERS {
        let unwritten = Trial { rt, alloc, words }.unwritten_runs(files)?;
        equal((*words, unwritten), (*words, *growths))?;
    }
    Ok(())
}

/// A circuit's garbled file, and the label file of a value of 32 bits, all of which are set.
fn garbled_and_labels(alloc: Global, text: &str) -> Result<(Vec<u8>, Vec<u8>), Fail> {
    let circuit = Circuit::read(alloc, text.as_bytes())?;
    let garbled = write(alloc, &circuit, Version::Two, None)?.bytes;
    Ok((garbled, label_file(alloc, &circuit, 0, &[true; 32])?))
}

#[test]
fn by_two_workers(rt: HostRuntime) -> Result<(), Fail> {
    let alloc = rt.alloc();
    let text = and_chains(alloc, 32, 32)?;
    let (garbled, labels) = garbled_and_labels(alloc, text.as_str())?;
    let files: [(&str, &[u8]); 4] = [
        ("c.txt", text.as_bytes()),
        ("g", garbled.as_slice()),
        ("l", labels.as_slice()),
        ("list", b"g l"),
    ];
    assert_orders(&rt, alloc, &files)
}

/// The files of eight lines are read before their garbled files are checked.
#[test]
fn of_a_list(rt: HostRuntime) -> Result<(), Fail> {
    let (rt, alloc, words) = (&rt, rt.alloc(), &["jobs", "c.txt", "nine"]);
    let unwritten = Trial { rt, alloc, words }.unwritten_runs(&XOR_FILES)?;
    equal(unwritten, 0)
}
