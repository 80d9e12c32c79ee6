//! Faults of binding a job, and of evaluating it.

use crate::ended::Ended;
use crate::listed::JobNames;
use crate::sentence::{Explanation, alone, on_file};
use gc_circuit::Circuit;
use gc_disk::Reread;
use gc_file::{Garbled, LabelFile};
use gc_job::{BindFault, Job, JobFiles};
use gc_order::{JobsOrder, Order};
use std::alloc::{AllocError, Allocator};

impl<A: Allocator + Copy, F: Reread> Ended<'_, A, F> {
    /// Explains why files are no job for the circuit: those of the job whose file was opened last.
    pub(crate) fn explain_binding(&self, fault: BindFault) -> Option<Explanation<A>> {
        let circuit = self.circuit_again(self.circuit())?;
        let names = match self.order {
            Order::Jobs(jobs) => self.unbound_names(&circuit, jobs, fault)?,
            _ => self.job_names()?,
        };
        let explanation = match fault {
            BindFault::OtherCircuit | BindFault::OtherCounts => {
                self.explain_garbled(&circuit, &names, fault)?
            }
            _ => self.explain_labels(&circuit, &names, fault)?,
        };
        let Explanation { place, sentence } = explanation;
        Some(Explanation {
            place,
            sentence: self.with_line_of(&names, sentence).ok()?,
        })
    }

    /// The names of the first of the last jobs of a list whose files have this fault of binding.
    fn unbound_names(
        &self,
        circuit: &Circuit<A>,
        jobs: &JobsOrder,
        fault: BindFault,
    ) -> Option<JobNames<A>> {
        let digest = circuit.digest();
        for names in self.last_jobs(jobs)? {
            if self.binding_fault(circuit, &digest, &names) == Some(fault) {
                return Some(names);
            }
        }
        None
    }

    /// The fault of binding the files of a job, if they can be reread and have one.
    fn binding_fault(
        &self,
        circuit: &Circuit<A>,
        digest: &[u8; 32],
        names: &JobNames<A>,
    ) -> Option<BindFault> {
        let garbled = self.garbled_again(names.garbled.as_str())?;
        let labels = self.labels_again(&names.labels)?;
        let files = JobFiles {
            garbled,
            labels: &labels,
        };
        Job::bind_by_digest(self.alloc, circuit, digest, files).err()
    }

    /// Explains that a garbled file is of another circuit.
    fn explain_garbled(
        &self,
        circuit: &Circuit<A>,
        names: &JobNames<A>,
        fault: BindFault,
    ) -> Option<Explanation<A>> {
        let name = names.garbled.as_str();
        let garbled = self.garbled_again(name)?;
        let sentence = match fault {
            BindFault::OtherCircuit => digest_sentence(self.alloc, circuit, &garbled),
            _ => counts_sentence(self.alloc, circuit, &garbled),
        };
        on_file(self.alloc, name, sentence)
    }

    /// Explains what is wrong with the label files of a job.
    fn explain_labels(
        &self,
        circuit: &Circuit<A>,
        names: &JobNames<A>,
        fault: BindFault,
    ) -> Option<Explanation<A>> {
        let mut found = Vec::with_capacity(self.alloc, names.labels.len()).ok()?;
        for name in &names.labels {
            let file = self.label_file_again(name.as_str())?;
            if fault_of(circuit, &found, &file) == Some(fault) {
                let sentence = label_sentence(self.alloc, circuit, &file, fault);
                return on_file(self.alloc, name.as_str(), sentence);
            }
            found.push(file.index()).ok()?;
        }
        let index = missing_value(circuit, &found)?;
        alone(
            self.alloc,
            format!(in self.alloc; "value {index}, counted from 0, has no label file"),
        )
    }
}

/// The sentence on a garbled file with another digest than the circuit's.
fn digest_sentence<A: Allocator + Copy>(
    alloc: A,
    circuit: &Circuit<A>,
    garbled: &Garbled<A>,
) -> Result<String<A>, AllocError> {
    let found = hex::encode(alloc, garbled.digest())?;
    let due = hex::encode(alloc, circuit.digest())?;
    format!(in alloc; "its circuit has the digest {found}, but this one has {due}")
}

/// The sentence on a garbled file with other counts than the circuit's.
fn counts_sentence<A: Allocator + Copy>(
    alloc: A,
    circuit: &Circuit<A>,
    garbled: &Garbled<A>,
) -> Result<String<A>, AllocError> {
    let (rows, bits) = (garbled.rows().len(), garbled.decode_bits().len());
    let (gates, outputs) = (circuit.and_count(), circuit.output_wires());
    format!(in alloc;
        "it has {rows} row pairs and {bits} decode bits, and {gates} and {outputs} are expected"
    )
}

/// The fault of a label file, where files for these input values come before it.
fn fault_of<A: Allocator>(
    circuit: &Circuit<A>,
    before: &[u32],
    file: &LabelFile<A>,
) -> Option<BindFault> {
    let index = file.index();
    let Some(width) = circuit.input_widths().get(index as usize) else {
        return Some(BindFault::NoSuchValue);
    };
    if file.labels().len() != *width as usize {
        return Some(BindFault::WrongWidth);
    }
    if before.contains(&index) {
        return Some(BindFault::DoubleValue);
    }
    None
}

/// The sentence on a label file with this fault.
fn label_sentence<A: Allocator + Copy>(
    alloc: A,
    circuit: &Circuit<A>,
    file: &LabelFile<A>,
    fault: BindFault,
) -> Result<String<A>, AllocError> {
    let (index, labels) = (file.index(), file.labels().len());
    let widths = circuit.input_widths();
    match fault {
        BindFault::NoSuchValue => {
            let count = widths.len();
            format!(in alloc; "it is for value {index}, counted from 0, and there are {count}")
        }
        BindFault::WrongWidth => {
            let width = widths.get(index as usize).copied().unwrap_or(0);
            format!(in alloc;
                "it has {labels} labels, and {width} are expected for value {index}, counted from 0"
            )
        }
        _ => format!(in alloc; "it is a second file for value {index}, counted from 0"),
    }
}

/// The first input value that isn't among those found.
fn missing_value<A: Allocator>(circuit: &Circuit<A>, found: &[u32]) -> Option<u32> {
    let mut index = 0u32;
    for _width in circuit.input_widths() {
        if !found.contains(&index) {
            return Some(index);
        }
        index = index.saturating_add(1);
    }
    None
}
