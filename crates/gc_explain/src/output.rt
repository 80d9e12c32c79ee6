//! Output labels that a garbled file doesn't recognise.

ghost use Rattle.std.specs.Prelude.{◌≡◌, ◌==◌, map, IfOk, IfSome, string_bytes};
ghost use Rattle.std.specs.List.{slice_split};
ghost use Rattle.sha2.specs.Sha256.{sha256};
ghost use Rattle.gc_netlist.specs.Canon.{canonical_text};
ghost use Rattle.gc_netlist.specs.Text.{tokens};
ghost use Rattle.gc_order.specs.Order.{order_text};
ghost use Rattle.gc_explain.specs.Output.{HasNamedJobFault, IsJobPlace, IsOutputPlace, IsUnknownLine};

use crate::ended::Ended;
use crate::sentence::{Explanation, file_place, line_place, on_file};
use gc_circuit::Circuit;
use gc_command::words_of_line;
use gc_disk::Reread;
use gc_job::{EvalFault, Job, JobFiles, evaluate};
use gc_order::{JobsOrder, Order};
use std::alloc::{AllocError, Allocator};
use std::str;

impl<A: Allocator + Copy, F: Reread> Ended<'_, A, F> {
    /// Explains an output label that the garbled file doesn't recognise.
    pub(crate) fn explain_output(&self, output: u32) -> Option<Explanation<A>>
        ensures { IfSome result (λ it. IsOutputPlace (F.bytes self.now.files.now)
            (order_text self.now.order.now) output it.place.items) }
    {
        match self.order {
            Order::Eval(eval) => {
                let sentence = sentence_of(self.alloc, output);
                on_file(self.alloc, eval.garbled.as_str(), sentence)
            }
            Order::Jobs(jobs) => self.explain_job(jobs, output),
            _ => None,
        }
    }

    /// Explains an unknown output label of a job in a list. The place is the first line that has such a job.
    fn explain_job(&self, jobs: &JobsOrder, output: u32) -> Option<Explanation<A>>
        ensures { IfSome result (λ it. IsJobPlace (F.bytes self.now.files.now)
            (string_bytes jobs.now.circuit) (string_bytes jobs.now.list) output
            it.place.items) }
    {
        let list = jobs.list.as_str();
        let place = match self.line_of_output(jobs, output) {
            Some(line) => line_place(self.alloc, list, line).ok()?,
            None => file_place(self.alloc, list).ok()?,
        };
        Some(Explanation {
            place,
            sentence: sentence_of(self.alloc, output).ok()?,
        })
    }

    /// The first line of a list, counted from 1, whose job has this unknown output label. The jobs are evaluated once
    /// more for it. There is none where the files can't be reread, or where memory is refused.
    fn line_of_output(&self, jobs: &JobsOrder, output: u32) -> Option<u64>
        ensures { IfSome result (λ line. IsUnknownLine (F.bytes self.now.files.now)
            (string_bytes jobs.now.circuit) (string_bytes jobs.now.list) line output) }
    {
        let circuit = self.circuit_again(jobs.circuit.as_str())?;
        let digest = circuit.digest();
        let list = self.read_again(jobs.list.as_str())?;
        let Ok(text) = str::from_utf8(&list) else {
            return None;
        };
        let lines = lines_of(self.alloc, text).ok()?;
        for (i, line) in lines.iter().enumerate() {
            let fault = self.fault_of_line(&circuit, &digest, line);
            if let Some(EvalFault::UnknownOutputLabel { output: found }) = fault {
                if found == output {
                    return Some(i as u64 + 1);
                }
            }
        }
        None
    }

    /// The fault of evaluating the job that a line names. There is none where the line names no job, or one that is
    /// evaluated. The caller ensures that this is the digest of the circuit's canonical text.
    fn fault_of_line(
        &self,
        circuit: &Circuit<A>,
        digest: &[u8; 32],
        line: &str,
    ) -> Option<EvalFault>
        requires { digest.now ≡ sha256 (canonical_text circuit.now) }
        ensures { IfSome result
            (HasNamedJobFault (F.bytes self.now.files.now) circuit.now (tokens line.now)) }
    {
        let Ok(words) = words_of_line(self.alloc, line) else {
            return None;
        };
        let Some((garbled, labels)) = words.split_first() else {
            return None;
        };
        let garbled = self.garbled_again(garbled)?;
        let labels = self.labels_again(labels)?;
        let files = JobFiles {
            garbled,
            labels: &labels,
        };
        let Ok(job) = Job::bind_by_digest(self.alloc, circuit, digest, files) else {
            return None;
        };
        match evaluate(self.alloc, &job) {
            Ok(_) => None,
            Err(fault) => Some(fault),
        }
    }
}

/// The sentence on an output wire.
fn sentence_of<A: Allocator + Copy>(alloc: A, output: u32) -> Result<String<A>, AllocError> {
    format!(in alloc;
        "the garbled file doesn't recognise the label of output wire {output}, counted from 0"
    )
}

/// The lines of a text.
fn lines_of<A: Allocator>(alloc: A, text: &str) -> Result<Vec<&str, A>, AllocError>
    ensures { IfOk result (λ lines.
        map (λ line. line.now) lines.items ≡ slice_split (λ b. b == 10) text.now) }
{
    text.split('\n').collect(alloc)
}
