//! The progress of a command, for an observer.

use std::fmt::{self, Display, Formatter};

/// What a command does in one of its steps.
#[derive(Clone, Copy, Debug, PartialEq, Eq)]
pub enum Stage {
    /// Reading the circuit's file.
    ReadingCircuit,
    /// Reading the garbled file and the label files.
    ReadingFiles,
    /// Reading the files of job `job` of `jobs`, counted from 1.
    ReadingJob { job: usize, jobs: usize },
    /// Putting the circuit's gates in order, and writing them.
    Ordering,
    /// Garbling this number of gates.
    Garbling { gates: u32 },
    /// Writing the garbled file.
    Writing,
    /// Evaluating this number of gates.
    Evaluating { gates: u32 },
    /// Evaluating this many jobs.
    EvaluatingJobs { jobs: usize },
}

impl Display for Stage {
    fn fmt<W: fmt::Write>(&self, f: &mut Formatter<W>) -> fmt::Result {
        match self {
            Stage::ReadingCircuit => f.write_str("reading the circuit"),
            Stage::ReadingFiles => f.write_str("reading the files"),
            Stage::ReadingJob { job, jobs } => write!(f, "reading job {job} of {jobs}"),
            Stage::Ordering => f.write_str("ordering the gates"),
            Stage::Garbling { gates } => write!(f, "garbling {gates} gates"),
            Stage::Writing => f.write_str("writing the garbled file"),
            Stage::Evaluating { gates } => write!(f, "evaluating {gates} gates"),
            Stage::EvaluatingJobs { jobs } => write!(f, "evaluating {jobs} jobs"),
        }
    }
}

/// An observer of a command that may take long.
pub trait Progress {
    /// The command begins this stage, which is step `step` of `steps`, counted from 1.
    fn begin(&self, step: u32, steps: u32, stage: Stage);

    /// The command is done, or a fault ended it: what it returns is about to be printed.
    fn end(&self);
}

/// An observer that does nothing.
#[derive(Clone, Copy, Debug)]
pub struct Silent;

impl Progress for Silent {
    fn begin(&self, _step: u32, _steps: u32, _stage: Stage) {}

    fn end(&self) {}
}
