//! The jobs of a few lines of a list, whose garbled files are digested side by side.

ghost use Rattle.std.specs.Prelude.{◌≡◌, ◌≤◌, ◌<◌, ℕ, List, All, length, map, take, IfOk, IfErr, OnOk};
ghost use Rattle.sha2.specs.Sha256.{sha256};
ghost use Rattle.gc_netlist.specs.Canon.{canonical_text};
ghost use Rattle.gc_netlist.specs.Text.{tokens};
ghost use Rattle.gc_lanes.specs.declared.digests.TheConstants.{SIDE_BY_SIDE};
ghost use Rattle.gc_disk.specs.Files.{HasFailed};
ghost use Rattle.gc_command.specs.Jobs.{HasLinesFault, NameJobs};
ghost use Rattle.gc_command.specs.LineFiles.{AreReadInTurn, HasMakingFault, MakeJobs, trailer_due};

use crate::binder::Binder;
use crate::fault::Fault;
use crate::line_files::{LineFiles, read_line};
use crate::progress::{Progress, Stage};
use gc_disk::Files;
use gc_file::before_trailer;
use gc_job::Job;
use gc_lanes::{SIDE_BY_SIDE, digest_eight};
use std::alloc::{AllocError, Allocator};

/// The steps of reading a few lines of a list.
#[derive(Drop)]
pub struct LineSteps<'a, P> {
    /// The observer of the command's steps.
    pub progress: &'a P,
    /// How many lines of the list come before them.
    pub before: usize,
    /// How many lines the list has.
    pub jobs: usize,
}

impl<'a, P: Progress> LineSteps<'a, P> {
    /// The files of the line of this index, counted from 0 among the few, are about to be read.
    fn begin(&self, index: usize) {
        let job = self.before.saturating_add(index).saturating_add(1);
        let jobs = self.jobs;
        self.progress.begin(2, 3, Stage::ReadingJob { job, jobs });
    }
}

impl<'c, A: Allocator + Copy> Binder<'c, A> {
    /// The jobs that at most eight lines name. Of one line each file is checked before the next is opened. The files of
    /// several are read in turn, up to the first fault of one that can't be read, or of a label file. Then their
    /// garbled files are digested side by side, and checked and bound in turn: so the fault is that of the first line
    /// that names no job. The caller ensures that the digest is the circuit's, and that each line has a token.
    pub fn read_group<F: Files, P: Progress>(
        &self,
        lines: &[&str],
        files: &mut F,
        steps: &LineSteps<'_, P>,
    ) -> Result<Vec<Job<'c, A, A>, A>, Fault>
        requires count { length lines.now ≤ SIDE_BY_SIDE }
        requires digest { self.now.digest.now ≡ sha256 (canonical_text self.now.circuit.now) }
        requires words { All (λ words. 0 < length words) (map (λ line. tokens line.now) lines.now) }
        ensures named { IfOk result (λ jobs. NameJobs (F.bytes files.old) self.now.circuit.now
            (map (λ line. tokens line.now) lines.now) jobs.items) }
        ensures fault { IfErr result (HasLinesFault (F.bytes files.old)
            (HasFailed (F.failures files.old) (F.failures files.new)) self.now.circuit.now
            (map (λ line. tokens line.now) lines.now)) }
        ensures counted { OnOk result (F.failures files.new ≡ F.failures files.old) }
        ensures same { (n : List ℕ) → F.bytes files.new n ≡ F.bytes files.old n }
    {
        if let [line] = lines {
            steps.begin(0);
            let mut jobs = Vec::with_capacity(self.alloc, 1)?;
            jobs.push(self.read_job(line, files)?)?;
            return Ok(jobs);
        }
        let read = read_lines(self.alloc, lines, files, steps)?;
        let trailers = trailers_due(self.alloc, &read)?;
        self.jobs_of_files(read, &trailers)
    }

    /// The jobs that the files of at most eight lines make. The caller ensures that the digest is the circuit's, and
    /// that `trailers` begin with those that are due. The bytes of each garbled file are dropped once it is read.
    fn jobs_of_files(
        &self,
        read: Vec<LineFiles<A>, A>,
        trailers: &[[u8; 32]; SIDE_BY_SIDE],
    ) -> Result<Vec<Job<'c, A, A>, A>, Fault>
        requires digest { self.now.digest.now ≡ sha256 (canonical_text self.now.circuit.now) }
        requires count { length read.items ≤ SIDE_BY_SIDE }
        requires trailers { take (length read.items) trailers.now ≡ map trailer_due read.items }
        ensures made { IfOk result (λ jobs. MakeJobs self.now.circuit.now read.items jobs.items) }
        ensures fault { IfErr result (HasMakingFault self.now.circuit.now read.items) }
    {
        let mut jobs = Vec::with_capacity(self.alloc, read.len())?;
        for files in read {
            let trailer = &trailers[jobs.len()];
            jobs.push(self.job_of_files(files, trailer)?)?;
        }
        Ok(jobs)
    }
}

/// The files of lines, read in turn, up to the first fault of one that can't be read, or of a label file. The caller
/// ensures that each line has a token.
fn read_lines<A: Allocator + Copy, F: Files, P: Progress>(
    alloc: A,
    lines: &[&str],
    files: &mut F,
    steps: &LineSteps<'_, P>,
) -> Result<Vec<LineFiles<A>, A>, AllocError>
    requires { All (λ words. 0 < length words) (map (λ line. tokens line.now) lines.now) }
    ensures read { IfOk result (λ read. AreReadInTurn (F.bytes files.old) (F.failures files.old)
        (F.failures files.new) (map (λ line. tokens line.now) lines.now) read.items) }
    ensures count { IfOk result (λ read. length read.items ≤ length lines.now) }
    ensures same { (n : List ℕ) → F.bytes files.new n ≡ F.bytes files.old n }
{
    let mut read = Vec::with_capacity(alloc, lines.len())?;
    for line in lines {
        steps.begin(read.len());
        let line_files = read_line(alloc, line, files);
        let are_whole = line_files.are_whole();
        read.push(line_files)?;
        if !are_whole {
            return Ok(read);
        }
    }
    Ok(read)
}

/// The digests that the trailers of the garbled files of at most eight lines are to be, and then unspecified bytes.
fn trailers_due<A: Allocator + Copy>(
    alloc: A,
    read: &[LineFiles<A>],
) -> Result<[[u8; 32]; SIDE_BY_SIDE], AllocError>
    requires { length read.now ≤ SIDE_BY_SIDE }
    ensures { IfOk result
        (λ trailers. take (length read.now) trailers ≡ map trailer_due read.now) }
{
    let messages: Vec<&[u8], A> = read
        .iter()
        .map(|files| before_trailer(files.garbled_bytes()))
        .collect(alloc)?;
    Ok(digest_eight(&messages))
}
