//! The files that a line of a list names, and the job that they make.

ghost use Rattle.std.specs.Prelude.{◌≡◌, ◌<◌, ℕ, true, List, length, IfOk, IfErr, OnOk};
ghost use Rattle.sha2.specs.Sha256.{sha256};
ghost use Rattle.gc_netlist.specs.Canon.{canonical_text};
ghost use Rattle.gc_netlist.specs.Text.{tokens};
ghost use Rattle.gc_disk.specs.Files.{HasFailed};
ghost use Rattle.gc_command.specs.Jobs.{HasNamedFault, NameJob};
ghost use Rattle.gc_command.specs.LineFiles.{AreNamed, MakeJob, MakeNoJob, are_whole, garbled_bytes, trailer_due};

use crate::binder::Binder;
use crate::evaluated_files::{are_regular, read_label_files, read_named};
use crate::fault::Fault;
use crate::job_list::words_of_line;
use gc_disk::Files;
use gc_file::{LabelFile, read_garbled_by_digest};
use gc_job::{Job, JobFiles};
use std::alloc::Allocator;

/// The files that a line names, as they were read. The garbled file's bytes aren't checked yet, so that those of
/// several lines can be digested side by side.
#[derive(Drop)]
pub enum LineFiles<A: Allocator> {
    /// The garbled file can't be read, or there is no memory for it.
    Unread(Fault),
    /// The garbled file's bytes, and the fault of the label files.
    Unlabelled(Vec<u8, A>, Fault),
    /// The garbled file's bytes, and the label files.
    Whole(Vec<u8, A>, Vec<LabelFile<A>, A>),
}

impl<A: Allocator> LineFiles<A> {
    /// The bytes of the garbled file. There are none where it was not read.
    pub fn garbled_bytes(&self) -> &[u8]
        ensures { result.now ≡ garbled_bytes self.now }
    {
        match self {
            LineFiles::Unread(_) => &[],
            LineFiles::Unlabelled(garbled, _) => garbled,
            LineFiles::Whole(garbled, _) => garbled,
        }
    }

    /// Whether all were read.
    pub fn are_whole(&self) -> bool
        ensures { result ≡ are_whole self.now }
    {
        matches!(self, LineFiles::Whole(..))
    }
}

/// Reads the files that a line names: first the garbled file, and then the label files, each of which is checked before
/// the next is opened. The caller ensures that the line has a token.
pub fn read_line<A: Allocator + Copy, F: Files>(alloc: A, line: &str, files: &mut F) -> LineFiles<A>
    requires { 0 < length (tokens line.now) }
    ensures named { AreNamed (F.bytes files.old)
        (HasFailed (F.failures files.old) (F.failures files.new)) (tokens line.now) result }
    ensures counted { are_whole result ≡ true → F.failures files.new ≡ F.failures files.old }
    ensures same { (n : List ℕ) → F.bytes files.new n ≡ F.bytes files.old n }
{
    let Ok(words) = words_of_line(alloc, line) else {
        return LineFiles::Unread(Fault::Memory);
    };
    let Some((garbled, labels)) = words.split_first() else {
        unreachable!()
    };
    let garbled = match files.read(alloc, garbled) {
        Ok(bytes) => bytes,
        Err(error) => return LineFiles::Unread(Fault::from(error)),
    };
    match read_label_files(alloc, labels, files) {
        Ok(labels) => LineFiles::Whole(garbled, labels),
        Err(fault) => LineFiles::Unlabelled(garbled, fault),
    }
}

impl<'c, A: Allocator + Copy> Binder<'c, A> {
    /// The job that the files of a line make. The caller ensures that the digest is the circuit's, and `trailer` that
    /// of the garbled file's bytes before its trailer. The bytes are dropped.
    pub fn job_of_files(
        &self,
        files: LineFiles<A>,
        trailer: &[u8; 32],
    ) -> Result<Job<'c, A, A>, Fault>
        requires digest { self.now.digest.now ≡ sha256 (canonical_text self.now.circuit.now) }
        requires trailer { trailer.now ≡ trailer_due files }
        ensures made { IfOk result (MakeJob self.now.circuit.now files) }
        ensures fault { IfErr result (MakeNoJob self.now.circuit.now files) }
    {
        match files {
            LineFiles::Unread(fault) => Err(fault),
            LineFiles::Unlabelled(garbled, fault) => {
                read_garbled_by_digest(self.alloc, &garbled, trailer)?;
                Err(fault)
            }
            LineFiles::Whole(garbled, labels) => {
                let garbled = read_garbled_by_digest(self.alloc, &garbled, trailer)?;
                let bound = JobFiles {
                    garbled,
                    labels: &labels,
                };
                Ok(Job::bind_by_digest(self.alloc, self.circuit, self.digest, bound)?)
            }
        }
    }

    /// The job that a line names. Each of its files is read and checked before the next is opened. The caller ensures
    /// that the digest is the circuit's, and that the line has a token.
    pub fn read_job<F: Files>(&self, line: &str, files: &mut F) -> Result<Job<'c, A, A>, Fault>
        requires digest { self.now.digest.now ≡ sha256 (canonical_text self.now.circuit.now) }
        requires words { 0 < length (tokens line.now) }
        ensures named { IfOk result
            (NameJob (F.bytes files.old) self.now.circuit.now (tokens line.now)) }
        ensures fault { IfErr result (HasNamedFault (F.bytes files.old)
            (HasFailed (F.failures files.old) (F.failures files.new))
            self.now.circuit.now (tokens line.now)) }
        ensures counted { OnOk result (F.failures files.new ≡ F.failures files.old) }
        ensures same { (n : List ℕ) → F.bytes files.new n ≡ F.bytes files.old n }
    {
        let words = words_of_line(self.alloc, line)?;
        let Some((garbled, labels)) = words.split_first() else {
            unreachable!()
        };
        let (garbled, labels) = read_named(self.alloc, garbled, labels, files)?;
        let bound = JobFiles {
            garbled,
            labels: &labels,
        };
        Ok(Job::bind_by_digest(self.alloc, self.circuit, self.digest, bound)?)
    }
}

/// Whether all files that a line names can be read ahead of their turn. Where there is no memory for the line's words,
/// they can't.
pub fn is_regular_line<A: Allocator + Copy, F: Files>(alloc: A, line: &str, files: &F) -> bool {
    match words_of_line(alloc, line) {
        Ok(words) => match words.split_first() {
            Some((garbled, labels)) => are_regular(garbled, labels, files),
            None => true,
        },
        Err(_) => false,
    }
}
