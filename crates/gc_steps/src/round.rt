//! What a seat works at in a round.

ghost use Rattle.std.specs.Prelude.{◌≡◌, Some};
ghost use Rattle.gc_job.specs.ActiveLabels.{gates_of};

use crate::jobs::Jobs;
use gc_gates::{Frame, Words};
use gc_job::{Job, ReadGate, Wiring};
use gc_label::Label;
use std::alloc::Allocator;

/// A round: the words of its gates, the tables of its circuit, its job and its number.
#[derive(Drop)]
pub struct Round<'w, 'c, J: Jobs, R: Frame<J>, B: Allocator, A: Allocator, C: Allocator> {
    pub words: &'w Words<J, R>,
    pub wiring: &'w Wiring<'c, B, C>,
    pub job: &'w Job<'c, A, C>,
    pub number: u32,
    ghost about: { J.job_at words.now.key.about number ≡ Some job.now },
    ghost gates: { gates_of job.now ≡ J.gates words.now.key.about },
    ghost wired: { job.now.circuit ≡ wiring.now },
}

/// A gate that can be made: the labels that it reads, and its state word, which was found free.
#[derive(Clone, Copy)]
pub struct Prepared {
    pub gate: u32,
    pub labels: (Label, Label),
    pub free: u64,
}

impl Prepared {
    /// The gate with the labels that it reads.
    #[inline]
    pub(crate) fn read_gate(&self) -> ReadGate
        ensures { result ≡ record {
          gate = self.now.gate;
          first = self.now.labels.0;
          second = self.now.labels.1;
        } }
    {
        let (first, second) = self.labels;
        ReadGate {
            gate: self.gate,
            first,
            second,
        }
    }
}
