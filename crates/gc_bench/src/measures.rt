//! The parts that are timed.

use crate::jobs::{one_after_another, side_by_side, together};
use crate::part::Part;
use anyhow::{Result, anyhow};
use gc_circuit::{Circuit, fits, plain_eval};
use gc_eval::evaluate_many;
use gc_file::{
    GarbledReader, LabelFile, MemSink, Sink, SinkFault, read_garbled, read_labels, write_garbled2,
    write_labels,
};
use gc_half::{Garbling, garble_one_thread, garble_two};
use gc_job::{Job, evaluate};
use gc_label::Seed;
use gc_lanes::{LongSha256, SIDE_BY_SIDE, digest_eight, hash_eight, hash_four};
use gc_work::garble;
use gc_workers::Open;
use sha2::{Digest, Sha256};
use std::alloc::Global;
use std::sync::Wait;
use std::thread::Threads;

/// A circuit's text, and all that its parts take, with zeros as inputs.
#[derive(Drop)]
pub struct Workload {
    alloc: Global,
    text: Vec<u8>,
    pub circuit: Circuit,
    seed: Seed,
    other: Seed,
    garbling: Garbling,
    values: Vec<Vec<bool>>,
    canonical_text: Vec<u8>,
    garbled_file: Vec<u8>,
}

/// A job, and a list of such jobs.
#[derive(Drop)]
pub struct Jobs<'c> {
    one: Job<'c>,
    list: Vec<Job<'c>>,
}

/// Input values of zeros.
fn values_of(alloc: Global, circuit: &Circuit) -> Result<Vec<Vec<bool>>> {
    let mut values = Vec::new(alloc);
    for width in circuit.input_widths() {
        values.push(vec![in alloc; false; *width as usize]?)?;
    }
    Ok(values)
}

/// A sink that takes all and keeps nothing.
#[derive(Drop)]
struct Nowhere;

impl Sink for Nowhere {
    ghost use Rattle.std.specs.Prelude.{None};

    ghost taken = { λ _. None };

    ghost failures = { λ _. 0 };

    fn put(&mut self, piece: &[u8]) -> Result<usize, SinkFault> {
        Ok(piece.len())
    }
}

impl Workload {
    pub fn new(alloc: Global, text: Vec<u8>) -> Result<Workload> {
        let circuit = Circuit::read(alloc, &text)?;
        let seed = Seed::from_bytes([0; 32]);
        let garbling = garble_one_thread(alloc, &circuit, &seed)?;
        Ok(Workload {
            alloc,
            text,
            values: values_of(alloc, &circuit)?,
            canonical_text: circuit.canon(alloc)?,
            garbled_file: file_of(alloc, &circuit, &garbling, &seed)?,
            circuit,
            seed,
            other: Seed::from_bytes([1; 32]),
            garbling,
        })
    }

    /// The job of the garbled file and of the values, and a list of this many such jobs.
    pub fn jobs(&self, count: u32) -> Result<Jobs<'_>> {
        let mut list = Vec::with_capacity(self.alloc, count as usize)?;
        for _ in 0..count {
            list.push(self.job()?)?;
        }
        Ok(Jobs {
            one: self.job()?,
            list,
        })
    }

    /// The job of the garbled file and of the values.
    fn job(&self) -> Result<Job<'_>> {
        let mut labels = Vec::new(self.alloc);
        for (index, value) in (0..).zip(&self.values) {
            labels.push(self.label_file(index, value)?)?;
        }
        let garbled = read_garbled(self.alloc, &self.garbled_file)?;
        Ok(Job::bind(self.alloc, &self.circuit, garbled, &labels)?)
    }

    /// The label file of an input value.
    fn label_file(&self, index: u32, value: &[bool]) -> Result<LabelFile> {
        let mut sink = MemSink::new(self.alloc, None);
        let widths = self.circuit.input_widths();
        if index as usize >= widths.len() || widths[index as usize] as usize != value.len() {
            return Err(anyhow!("the value does not fit"));
        }
        write_labels(&mut sink, &self.circuit, &self.seed, index, value)?;
        Ok(read_labels(self.alloc, &sink.into_bytes())?)
    }

    /// Does a part of the work once.
    pub fn run<R: Threads + Wait + Sync>(&self, rt: &R, part: Part, jobs: &Jobs) -> Result<()> {
        let (alloc, job) = (self.alloc, &jobs.one);
        match part {
            Part::Read => Ok(Circuit::read(alloc, &self.text).map(drop)?),
            Part::Plain => self.plain(),
            Part::Lanes => self.lanes(),
            Part::EightLanes => self.eight_lanes(),
            Part::Garble => Ok(garble_one_thread(alloc, &self.circuit, &self.seed).map(drop)?),
            Part::GarbleTwo => {
                Ok(garble_two(alloc, &self.circuit, &self.seed, &self.other).map(drop)?)
            }
            Part::GarbleBy(workers) => self.garble(rt, workers),
            Part::Job => Ok(evaluate(alloc, job).map(drop)?),
            Part::JobFour => side_by_side(alloc, job),
            Part::JobBy(workers) => Ok(evaluate_many(rt, alloc, job, workers, &Open).map(drop)?),
            Part::List => one_after_another(alloc, &jobs.list),
            Part::ListBy(workers) => together(rt, alloc, &jobs.list, workers),
            Part::Digest => self.digest(),
            Part::Sha => sha(&self.canonical_text),
            Part::Write => write(&mut Nowhere, &self.circuit, &self.garbling, &self.seed),
            Part::ReadFile => self.read_file(),
            Part::Pieces => self.pieces(),
            Part::FileSha => sha(&self.garbled_file),
            Part::EightSha => self.eight_files(),
            Part::KitSha => not_zeros(Sha256::digest(&self.garbled_file)),
        }
    }

    fn plain(&self) -> Result<()> {
        if !fits(&self.circuit, &self.values) {
            return Err(anyhow!("the values do not fit"));
        }
        plain_eval(self.alloc, &self.circuit, &self.values)?;
        Ok(())
    }

    /// The hashes of garbling in four lanes, each of the label that the one before in its lane gave.
    fn lanes(&self) -> Result<()> {
        let mut labels = [0; 4];
        for k in 0..u64::from(self.circuit.and_count()) {
            labels = hash_four(labels, [k; 4]);
        }
        if labels == [0; 4] {
            return Err(anyhow!("hashes of zeros"));
        }
        Ok(())
    }

    /// As many hashes as [`Workload::lanes`] takes, in eight lanes.
    fn eight_lanes(&self) -> Result<()> {
        let mut labels = [0; 8];
        for k in 0..u64::from(self.circuit.and_count().div_ceil(2)) {
            labels = hash_eight(labels, [k; 8]);
        }
        if labels == [0; 8] {
            return Err(anyhow!("hashes of zeros"));
        }
        Ok(())
    }

    /// Garbles with this many workers.
    fn garble<R: Threads + Wait + Sync>(&self, rt: &R, workers: u32) -> Result<()> {
        garble(rt, self.alloc, &self.circuit, &self.seed, workers, &Open)?;
        Ok(())
    }

    fn digest(&self) -> Result<()> {
        not_zeros(self.circuit.digest())
    }

    fn read_file(&self) -> Result<()> {
        not_zeros(read_garbled(self.alloc, &self.garbled_file)?.digest())
    }

    fn eight_files(&self) -> Result<()> {
        let [digest, ..] = digest_eight(&[self.garbled_file.as_slice(); SIDE_BY_SIDE]);
        not_zeros(digest)
    }

    fn pieces(&self) -> Result<()> {
        let mut reader = GarbledReader::new(self.alloc);
        for piece in self.garbled_file.chunks(4096) {
            reader.feed(piece)?;
        }
        not_zeros(reader.end()?.digest())
    }
}

/// Writes the garbled file of version 2.
fn write<S: Sink>(sink: &mut S, circuit: &Circuit, garbling: &Garbling, seed: &Seed) -> Result<()> {
    if !garbling.fits(circuit) {
        return Err(anyhow!("the garbling does not fit"));
    }
    write_garbled2(sink, circuit, garbling, seed)?;
    Ok(())
}

/// The garbled file of version 2, in memory.
fn file_of(alloc: Global, circuit: &Circuit, garbling: &Garbling, seed: &Seed) -> Result<Vec<u8>> {
    let mut sink = MemSink::new(alloc, None);
    write(&mut sink, circuit, garbling, seed)?;
    Ok(sink.into_bytes())
}

fn sha(bytes: &[u8]) -> Result<()> {
    not_zeros(LongSha256::digest(bytes))
}

/// Uses a digest, so that it must be computed.
fn not_zeros(digest: [u8; 32]) -> Result<()> {
    if digest == [0; 32] {
        return Err(anyhow!("a digest of zeros"));
    }
    Ok(())
}
