//! The jobs of a list, from their files.

ghost use Rattle.std.specs.Prelude.{◌≡◌, ◌<◌, ◌≤◌, ℕ, List, length, map, All, IfOk, IfErr, OnOk};
ghost use Rattle.sha2.specs.Sha256.{sha256};
ghost use Rattle.gc_netlist.specs.Canon.{canonical_text};
ghost use Rattle.gc_netlist.specs.Text.{tokens};
ghost use Rattle.gc_disk.specs.Files.{HasFailed};
ghost use Rattle.gc_lanes.specs.declared.digests.TheConstants.{SIDE_BY_SIDE};
ghost use Rattle.gc_command.specs.Jobs.{AreListed, HasListFault, HasLinesFault, NameJobs};

use crate::binder::Binder;
use crate::fault::Fault;
use crate::job_list::listed_lines;
use crate::line_files::is_regular_line;
use crate::line_group::LineSteps;
use crate::progress::Progress;
use gc_circuit::Circuit;
use gc_disk::Files;
use gc_file::Version;
use gc_file::sizes::{LABEL, garbled_size};
use gc_job::Job;
use gc_lanes::SIDE_BY_SIDE;
use std::alloc::Allocator;

impl<'c, A: Allocator + Copy> Binder<'c, A> {
    /// The jobs of the list in the file of this name. The list's bytes are dropped. The caller ensures that the digest
    /// is the circuit's.
    pub fn read_listed_jobs<F: Files, P: Progress>(
        &self,
        list: &str,
        files: &mut F,
        progress: &P,
    ) -> Result<Vec<Job<'c, A, A>, A>, Fault>
        requires { self.now.digest.now ≡ sha256 (canonical_text self.now.circuit.now) }
        ensures listed { IfOk result
            (λ jobs. AreListed (F.bytes files.old) list.now self.now.circuit.now jobs.items) }
        ensures fault { IfErr result (HasListFault (F.bytes files.old)
            (HasFailed (F.failures files.old) (F.failures files.new))
            list.now self.now.circuit.now) }
        ensures counted { OnOk result (F.failures files.new ≡ F.failures files.old) }
        ensures same { (n : List ℕ) → F.bytes files.new n ≡ F.bytes files.old n }
    {
        let text = files.read(self.alloc, list)?;
        let lines = listed_lines(self.alloc, &text)?;
        self.read_jobs(&lines, files, progress)
    }

    /// The jobs that lines name, some lines at a time. The caller ensures that the digest is the circuit's, and that
    /// each line has a token.
    fn read_jobs<F: Files, P: Progress>(
        &self,
        lines: &[&str],
        files: &mut F,
        progress: &P,
    ) -> Result<Vec<Job<'c, A, A>, A>, Fault>
        requires digest { self.now.digest.now ≡ sha256 (canonical_text self.now.circuit.now) }
        requires words { All (λ words. 0 < length words) (map (λ line. tokens line.now) lines.now) }
        ensures named { IfOk result (λ jobs. NameJobs (F.bytes files.old) self.now.circuit.now
            (map (λ line. tokens line.now) lines.now) jobs.items) }
        ensures fault { IfErr result (HasLinesFault (F.bytes files.old)
            (HasFailed (F.failures files.old) (F.failures files.new)) self.now.circuit.now
            (map (λ line. tokens line.now) lines.now)) }
        ensures counted { OnOk result (F.failures files.new ≡ F.failures files.old) }
        ensures same { (n : List ℕ) → F.bytes files.new n ≡ F.bytes files.old n }
    {
        let most = lines_at_a_time(self.circuit);
        let mut jobs = Vec::with_capacity(self.alloc, lines.len())?;
        while jobs.len() < lines.len() {
            let (_, left) = lines.split_at(jobs.len());
            let (group, _) = left.split_at(lines_ahead(self.alloc, left, most, files));
            let steps = LineSteps {
                progress,
                before: jobs.len(),
                jobs: lines.len(),
            };
            let mut made = self.read_group(group, files, &steps)?;
            jobs.append(&mut made)?;
        }
        Ok(jobs)
    }
}

/// How many lines are read before their garbled files are checked: as many as are digested side by side, or fewer, but
/// at least one, where their garbled files would have more bytes than the labels with which four jobs are evaluated
/// side by side, one for each wire and job.
fn lines_at_a_time<A: Allocator>(circuit: &Circuit<A>) -> usize
    ensures least { 1 ≤ result }
    ensures most { result ≤ SIDE_BY_SIDE }
{
    let labels = u64::from(circuit.wires()) * (4 * LABEL as u64);
    let each = garbled_size(circuit, Version::Two).max(1);
    (labels / each).clamp(1, SIDE_BY_SIDE as u64) as usize
}

/// How many of the lines that are left are read before their garbled files are checked: `most`, or all if fewer are
/// left, where these lines name regular files alone, and else one. The caller ensures that a line is left.
fn lines_ahead<A: Allocator + Copy, F: Files>(
    alloc: A,
    left: &[&str],
    most: usize,
    files: &F,
) -> usize
    requires left { 0 < length left.now }
    requires most { 1 ≤ most }
    ensures least { 1 ≤ result }
    ensures left { result ≤ length left.now }
    ensures most { result ≤ most }
{
    let count = most.min(left.len());
    let (group, _) = left.split_at(count);
    if count == 1 || group.iter().all(|line| is_regular_line(alloc, line, files)) {
        count
    } else {
        1
    }
}
