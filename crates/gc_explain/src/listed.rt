//! The files of a job, and its line in a list.

use crate::ended::Ended;
use gc_command::words_of_line;
use gc_disk::Reread;
use gc_lanes::SIDE_BY_SIDE;
use gc_order::{JobsOrder, Order};
use std::alloc::{AllocError, Allocator};
use std::convert::AsStr;
use std::str;

/// How many files `jobs` opens before those of the first job: the circuit and the list.
const BEFORE_JOBS: u64 = 2;

/// The names of a job's files, and its line, if a list names it.
#[derive(Drop)]
pub(crate) struct JobNames<A: Allocator> {
    pub(crate) garbled: String<A>,
    pub(crate) labels: Vec<String<A>, A>,
    pub(crate) line: Option<u64>,
}

impl<A: Allocator + Copy, F: Reread> Ended<'_, A, F> {
    /// The names of the files of the job whose file was opened last. There are none where a list can't be reread.
    pub(crate) fn job_names(&self) -> Option<JobNames<A>> {
        match self.order {
            Order::Eval(eval) => names_of(self.alloc, &eval.garbled, &eval.labels, None).ok(),
            Order::Audit(audit) => names_of(self.alloc, &audit.garbled, &audit.labels, None).ok(),
            Order::Jobs(jobs) => self.last_jobs(jobs)?.pop(),
            _ => None,
        }
    }

    /// The names of the files of each job that may have been at work last: `jobs` opens those of up to eight lines
    /// before it checks their garbled files. There are none where the list can't be reread.
    pub(crate) fn last_jobs(&self, jobs: &JobsOrder) -> Option<Vec<JobNames<A>, A>> {
        let word = self.opened.checked_sub(BEFORE_JOBS + 1)?;
        let text = self.read_again(jobs.list.as_str())?;
        names_up_to(self.alloc, &text, word)
    }

    /// A sentence on the file that was opened last, with the job's line where a list names it.
    pub(crate) fn with_line(&self, sentence: String<A>) -> Result<String<A>, AllocError> {
        match self.job_names() {
            Some(names) => self.with_line_of(&names, sentence),
            None => Ok(sentence),
        }
    }

    /// A sentence on a file of this job, with the job's line where a list names it.
    pub(crate) fn with_line_of(
        &self,
        names: &JobNames<A>,
        sentence: String<A>,
    ) -> Result<String<A>, AllocError> {
        match (self.order, names.line) {
            (Order::Jobs(jobs), Some(line)) => {
                let (sentence, list) = (sentence.as_str(), jobs.list.as_str());
                format!(in self.alloc; "{sentence} (line {line} of {list})")
            }
            _ => Ok(sentence),
        }
    }
}

/// The names on the line of a list that has the word of this number, counted from 0 over all lines, and on up to seven
/// lines with names before it.
fn names_up_to<A: Allocator + Copy>(
    alloc: A,
    list: &[u8],
    word: u64,
) -> Option<Vec<JobNames<A>, A>> {
    let (mut line, mut left) = (0u64, word);
    let mut last = Vec::new(alloc);
    for text in list.split(|byte| *byte == b'\n') {
        line = line.saturating_add(1);
        let words = words_of_line(alloc, str::from_utf8(text).ok()?).ok()?;
        if let Some((garbled, labels)) = words.split_first() {
            if last.len() == SIDE_BY_SIDE {
                last.remove(0);
            }
            last.push(names_of(alloc, garbled, labels, Some(line)).ok()?)
                .ok()?;
        }
        let count = words.len() as u64;
        if left < count {
            return Some(last);
        }
        left -= count;
    }
    None
}

/// The names of the files of a job, with its line, if a list names it.
fn names_of<A: Allocator + Copy, N: AsStr>(
    alloc: A,
    garbled: &str,
    labels: &[N],
    line: Option<u64>,
) -> Result<JobNames<A>, AllocError> {
    let mut copies = Vec::with_capacity(alloc, labels.len())?;
    for name in labels {
        copies.push(String::from_str(alloc, name.as_str())?)?;
    }
    Ok(JobNames {
        garbled: String::from_str(alloc, garbled)?,
        labels: copies,
        line,
    })
}
