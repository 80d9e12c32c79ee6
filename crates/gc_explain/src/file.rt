//! Faults of garbled files and of label files.

ghost use Rattle.std.specs.Prelude.{◌≢◌, ◌<◌, IfSome};
ghost use Rattle.gc_explain.specs.Explain.{HasFileFault, IsFilePlace};

use crate::ended::Ended;
use crate::listed::JobNames;
use crate::sentence::{Explanation, byte_place, file_place};
use gc_disk::Reread;
use gc_file::{FileFault, read_garbled, read_labels, u32_at};
use gc_netlist::MAX_GATES;
use gc_order::{JobsOrder, Order};
use std::alloc::Allocator;

/// A garbled file or a label file, by its name.
#[derive(Drop)]
struct NamedFile<'a> {
    name: &'a str,
    is_garbled: bool,
}

impl<A: Allocator + Copy, F: Reread> Ended<'_, A, F> {
    /// Explains a fault of a file: of the one that was opened last or, where a list names the files, of the first file
    /// of the last jobs that has it.
    pub(crate) fn explain_file(&self, fault: FileFault) -> Option<Explanation<A>>
        requires { fault ≢ FileFault.Memory }
        ensures { IfSome result
            (λ it. IsFilePlace (F.bytes self.now.files.now) fault it.place.items) }
    {
        match self.order {
            Order::Jobs(jobs) => self.explain_listed_file(jobs, fault),
            _ => self.explain_last_file(fault),
        }
    }

    /// Explains a fault of the file that was opened last. Where it can't be reread, or has another fault now, the place
    /// is the whole file.
    fn explain_last_file(&self, fault: FileFault) -> Option<Explanation<A>>
        requires { fault ≢ FileFault.Memory }
        ensures { IfSome result
            (λ it. IsFilePlace (F.bytes self.now.files.now) fault it.place.items) }
    {
        let file = NamedFile {
            name: self.files.log().name(),
            is_garbled: self.opened <= 2,
        };
        let place = match self.byte_of_fault(&file, fault) {
            Some(byte) => byte_place(self.alloc, file.name, byte).ok()?,
            None => file_place(self.alloc, file.name).ok()?,
        };
        Some(Explanation {
            place,
            sentence: String::from_str(self.alloc, meaning_of(file.is_garbled, fault)).ok()?,
        })
    }

    /// Explains a fault of a file that a list names, if one of the last jobs' files has it now.
    fn explain_listed_file(&self, jobs: &JobsOrder, fault: FileFault) -> Option<Explanation<A>>
        requires { fault ≢ FileFault.Memory }
        ensures { IfSome result
            (λ it. IsFilePlace (F.bytes self.now.files.now) fault it.place.items) }
    {
        for names in &self.last_jobs(jobs)? {
            let explanation = self.explain_job_file(names, fault);
            if explanation.is_some() {
                return explanation;
            }
        }
        None
    }

    /// Explains the fault of the first file of a job that has it.
    fn explain_job_file(&self, names: &JobNames<A>, fault: FileFault) -> Option<Explanation<A>>
        requires { fault ≢ FileFault.Memory }
        ensures { IfSome result
            (λ it. IsFilePlace (F.bytes self.now.files.now) fault it.place.items) }
    {
        let garbled = NamedFile {
            name: names.garbled.as_str(),
            is_garbled: true,
        };
        let explanation = self.explain_named(&garbled, names, fault);
        if explanation.is_some() {
            return explanation;
        }
        for label in &names.labels {
            let labels = NamedFile {
                name: label.as_str(),
                is_garbled: false,
            };
            let explanation = self.explain_named(&labels, names, fault);
            if explanation.is_some() {
                return explanation;
            }
        }
        None
    }

    /// Explains the fault of a file of a job, if it has it.
    fn explain_named(
        &self,
        file: &NamedFile<'_>,
        names: &JobNames<A>,
        fault: FileFault,
    ) -> Option<Explanation<A>>
        requires { fault ≢ FileFault.Memory }
        ensures { IfSome result
            (λ it. IsFilePlace (F.bytes self.now.files.now) fault it.place.items) }
    {
        let byte = self.byte_of_fault(file, fault)?;
        let meaning = String::from_str(self.alloc, meaning_of(file.is_garbled, fault)).ok()?;
        Some(Explanation {
            place: byte_place(self.alloc, file.name, byte).ok()?,
            sentence: self.with_line_of(names, meaning).ok()?,
        })
    }

    /// The byte at which a file has this fault, if it has it.
    fn byte_of_fault(&self, file: &NamedFile<'_>, fault: FileFault) -> Option<u64>
        requires { fault ≢ FileFault.Memory }
        ensures { IfSome result (λ _.
            IfSome (F.bytes self.now.files.now file.now.name.now) (HasFileFault fault)) }
    {
        let bytes = self.read_again(file.name)?;
        if file.is_garbled {
            match read_garbled(self.alloc, &bytes) {
                Err(found) if found == fault => Some(garbled_byte(&bytes, fault)),
                _ => None,
            }
        } else {
            match read_labels(self.alloc, &bytes) {
                Err(found) if found == fault => Some(labels_byte(&bytes, fault)),
                _ => None,
            }
        }
    }
}

/// The byte at which a garbled file has this fault.
fn garbled_byte(bytes: &[u8], fault: FileFault) -> u64 {
    let version = bytes.get(7).copied().unwrap_or(0);
    let rows = count_at(bytes, 40);
    let outputs = count_at(bytes, 44);
    let bits = outputs.div_ceil(8);
    let entries = if version == b'2' { outputs } else { 0 };
    let body = 48 + 32 * rows + bits;
    match fault {
        FileFault::BadMagic if version == b'2' => first_difference(bytes, b"HGARBLE2"),
        FileFault::BadMagic => first_difference(bytes, b"HGARBLE1"),
        FileFault::CountTooLarge if rows > u64::from(MAX_GATES) => 40,
        FileFault::CountTooLarge => 44,
        FileFault::SpareBits => body - 1,
        FileFault::BadTrailer => body + 32 * entries,
        FileFault::Trailing => body + 32 * entries + 32,
        FileFault::Truncated | FileFault::Memory => bytes.len() as u64,
    }
}

/// The byte at which a label file has this fault.
fn labels_byte(bytes: &[u8], fault: FileFault) -> u64 {
    match fault {
        FileFault::BadMagic => first_difference(bytes, b"HLABELS1"),
        FileFault::CountTooLarge => 12,
        FileFault::Trailing => 16 + 16 * count_at(bytes, 12),
        _ => bytes.len() as u64,
    }
}

/// The count at this place, or 0 where its bytes are not there.
fn count_at(bytes: &[u8], place: usize) -> u64
    requires { place < 64 }
    ensures { result < 4294967296 }
{
    if bytes.len() < place + 4 {
        return 0;
    }
    u64::from(u32_at(place, bytes))
}

/// The first byte that isn't that of the magic.
fn first_difference(bytes: &[u8], magic: &[u8]) -> u64 {
    let mut at = 0u64;
    for (byte, due) in bytes.iter().zip(magic) {
        if byte != due {
            return at;
        }
        at = at.saturating_add(1);
    }
    at
}

/// What a fault of a garbled file, or of a label file, means.
fn meaning_of(is_garbled: bool, fault: FileFault) -> &'static str {
    match fault {
        FileFault::BadMagic if is_garbled => "a garbled file begins with HGARBLE1 or HGARBLE2",
        FileFault::BadMagic => "a label file begins with HLABELS1",
        FileFault::Truncated => "the file ends too early",
        FileFault::Trailing => "bytes follow the end of the file",
        FileFault::CountTooLarge if is_garbled => {
            "a garbled file has at most 16777216 row pairs and 33554432 outputs"
        }
        FileFault::CountTooLarge => "a label file has at most 33554432 labels",
        FileFault::SpareBits => "a bit of the last decode byte is set that belongs to no output",
        FileFault::BadTrailer => "the trailer isn't the SHA-256 of the bytes before it",
        FileFault::Memory => "memory ran out",
    }
}
