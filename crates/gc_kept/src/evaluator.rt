//! Evaluating in pieces: row pairs are used as they come.

ghost use Rattle.std.specs.Prelude.{◌≡◌, ◌+◌, ◌*◌, ◌/◌, ◌%◌, ◌^◌, ◌<◌, ◌≤◌, length, min, take, IfOk, IfErr, OnOk, OnErr};
ghost use Rattle.gc_netlist.specs.Circuit.{and_count, input_wires, output_wires};
ghost use Rattle.gc_job.specs.declared.fault.EvalFault.TheVariants as eval;
ghost use Rattle.gc_kept.specs.Evaluator.{IsBegunOn, HasBeginFault, UsesRows, UsesWhole, HasFeedFault, IsUsed, AreFoundLabels, HasFoundFault};

use crate::CHUNK;
use crate::circuit::KeptCircuit;
use crate::fault::KeptFault;
use crate::from_labels::NO_MEMORY;
use crate::label_bytes::write_labels;
use crate::room::has_room;
use gc_file::sizes::{LABEL, PAIR};
use gc_file::{labels_from_bytes, read_rows};
use gc_half::{FirstAnd, NO_ROWS, RowPair, StreamingEvaluator};
use std::alloc::Global;
use std::marker::Model;

/// An evaluation in progress, with its circuit. It has a label of 16 bytes for each wire, and keeps no row pairs.
#[derive(Drop)]
pub struct KeptEvaluator {
    circuit: KeptCircuit,
    evaluator: StreamingEvaluator<Global>,
}

impl Model for KeptEvaluator {
    ghost use Rattle.gc_half.specs.Streaming.{IsEvaluatorOf};
    ghost use Rattle.gc_kept.specs.Evaluator.{EvaluatorWith};

    ghost Value = { EvaluatorWith };

    ghost view = { λ e. record { circuit = e.circuit.netlist; evaluator = e.evaluator } };

    ghost invariant = { λ e. IsEvaluatorOf e.circuit.netlist e.evaluator };
}

impl KeptCircuit {
    /// Begins to evaluate the circuit on an active label for each input wire, 16 bytes each, AND gates numbered from
    /// `first` on. Nothing of the labels is trusted. It refuses another number of bytes (66), and then a first AND gate
    /// whose sum with the number of AND gates is above 2^62 (60).
    pub fn begin_evaluating(
        &self,
        alloc: Global,
        first: u64,
        labels: &[u8],
    ) -> Result<KeptEvaluator, KeptFault>
        ensures ok { IfOk result (IsBegunOn self.now.netlist first labels.now) }
        ensures fault { IfErr result (HasBeginFault self.now.netlist first labels.now) }
    {
        let circuit = self.circuit();
        if labels.len() != LABEL * circuit.input_wires() as usize {
            return Err(KeptFault::WrongSize);
        }
        let Some(first) = FirstAnd::new(first, circuit.and_count()) else {
            return Err(KeptFault::BadArgument);
        };
        self.evaluator_on(alloc, first, labels)
    }

    /// Begins to evaluate the circuit on these labels. The caller ensures that there is one for each input wire, and
    /// that `first` is one for this circuit's AND gates.
    #[tactic(auto, using(crate::proofs::PieceLemmas::length_labels))]
    pub(crate) fn evaluator_on(
        &self,
        alloc: Global,
        first: FirstAnd,
        labels: &[u8],
    ) -> Result<KeptEvaluator, KeptFault>
        requires labels { length labels.now ≡ 16 * input_wires self.now.netlist }
        requires numbers { first + and_count self.now.netlist ≤ 2 ^ 62 }
        ensures ok { IfOk result (IsBegunOn self.now.netlist first labels.now) }
        ensures fault { IfErr result (λ fault. fault ≡ KeptFault.Evaluation eval.Memory) }
    {
        let Ok(labels) = labels_from_bytes(alloc, labels) else {
            return Err(NO_MEMORY);
        };
        let Ok(evaluator) = StreamingEvaluator::begin(alloc, self.circuit(), first, &labels) else {
            return Err(NO_MEMORY);
        };
        match self.again() {
            Ok(circuit) => Ok(KeptEvaluator { circuit, evaluator }),
            Err(_) => Err(NO_MEMORY),
        }
    }
}

impl KeptEvaluator {
    /// Uses the whole row pairs that come next, 32 bytes each, and returns how many bytes they have. A part of a row
    /// pair at the end is left for the next call. Nothing of them is trusted. It refuses more row pairs than are left
    /// (66), and doesn't allocate.
    pub fn feed(&mut self, bytes: &[u8]) -> Result<usize, KeptFault>
        ensures ok { IfOk result (UsesWhole self.old self.new bytes.now) }
        ensures fault { IfErr result (HasFeedFault self.old (length bytes.now)) }
        ensures kept { OnErr result (self.new ≡ self.old) }
    {
        let count = bytes.len() / PAIR;
        if count > self.evaluator.left(self.circuit.circuit()) as usize {
            return Err(KeptFault::WrongSize);
        }
        self.use_rows(&bytes[..PAIR * count]);
        Ok(PAIR * count)
    }

    /// Uses the row pairs that come next. The caller ensures that they are whole, and that as many are left.
    pub(crate) fn use_rows(&mut self, bytes: &[u8])
        requires whole { length bytes.now % 32 ≡ 0 }
        requires left { self.old.evaluator.used + length bytes.now / 32
            ≤ and_count self.old.circuit }
        ensures { UsesRows self.old self.new bytes.now }
    {
        let mut rows = [NO_ROWS; CHUNK];
        let mut used = 0;
        while used < bytes.len() {
            used += self.use_some(&mut rows, &bytes[used..]);
        }
    }

    /// Uses the first of these row pairs, as many as there are places for them, and returns how many bytes they have.
    /// The caller ensures that as many are left.
    fn use_some(&mut self, rows: &mut [RowPair], bytes: &[u8]) -> usize
        requires left { self.old.evaluator.used + length bytes.now / 32
            ≤ and_count self.old.circuit }
        ensures uses { UsesRows self.old self.new (take result bytes.now) }
        ensures most { result ≡ 32 * min (length rows.old) (length bytes.now / 32) }
    {
        let count = rows.len().min(bytes.len() / PAIR);
        read_rows(&bytes[..PAIR * count], &mut rows[..count]);
        self.evaluator.feed(self.circuit.circuit(), &rows[..count]);
        PAIR * count
    }

    /// Writes the active labels of the output wires, 16 bytes each, to the front of a buffer. Where row pairs are left
    /// it refuses (67), and then a buffer that is too small (61).
    pub fn output_labels(&self, outputs: &mut [u8]) -> Result<(), KeptFault>
        ensures ok { OnOk result (AreFoundLabels self.now outputs.old outputs.new) }
        ensures fault { IfErr result (HasFoundFault self.now (length outputs.old)) }
        ensures unwritten { OnErr result (outputs.new ≡ outputs.old) }
    {
        let circuit = self.circuit.circuit();
        if !self.evaluator.is_whole(circuit) {
            return Err(KeptFault::Unfinished);
        }
        has_room(LABEL * circuit.output_wires() as usize, outputs)?;
        self.write_labels(outputs);
        Ok(())
    }

    /// Writes the active labels of the output wires to the front of a buffer. The caller ensures that no row pairs are
    /// left, and that there is room.
    pub(crate) fn write_labels(&self, outputs: &mut [u8])
        requires whole { IsUsed self.now }
        requires room { 16 * output_wires self.now.circuit ≤ length outputs.old }
        ensures { AreFoundLabels self.now outputs.old outputs.new }
    {
        let labels = self.evaluator.output_labels(self.circuit.circuit());
        write_labels(labels, outputs);
    }
}
