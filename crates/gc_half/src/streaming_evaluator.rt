//! Evaluating a circuit in pieces: its row pairs are used as they come.

ghost use Rattle.std.specs.Prelude.{◌≡◌, ◌↔◌, ◌≤◌, ◌+◌, ◌^◌, ℕ, List, [], IsTrue, length, IfOk};
ghost use Rattle.gc_netlist.specs.Circuit.{and_count, input_wires, output_wires};
ghost use Rattle.gc_half.specs.Joined.{AreOutputLabels};
ghost use Rattle.gc_half.specs.Pieces.{IsBegunEvaluator};
ghost use Rattle.gc_half.specs.Streaming.{IsEvaluatedSoFar, IsEvaluatorOf, EvaluatesPiece};
ghost use Rattle.gc_half.specs.declared.garbling.RowPair.{RowPair};

use crate::active_table::ActiveTable;
use crate::evaluate::{evaluate_piece, output_labels};
use crate::first::FirstAnd;
use crate::garbling::RowPair;
use crate::labels::padded_labels;
use gc_circuit::{Circuit, Memory};
use gc_label::Label;
use std::alloc::{Allocator, Global};
use std::marker::Model;
use std::mem;

/// An evaluation in progress, in file order. It uses the row pairs as they come, and doesn't keep them: it has an
/// active label of 16 bytes for each wire, and nothing else that grows with the circuit. Only beginning allocates.
#[derive(Drop)]
pub struct StreamingEvaluator<A: Allocator = Global> {
    first: FirstAnd,
    labels: Vec<Label, A>,
    gates: u32,
    used: u32,
}

impl<A: Allocator> Model for StreamingEvaluator<A> {
    ghost use Rattle.gc_half.specs.Streaming.{StreamingEvaluatorParts};

    ghost Value = { StreamingEvaluatorParts };

    ghost view = { λ e. record {
      first = e.first;
      labels = e.labels.items;
      gates = e.gates;
      used = e.used;
    } };
}

impl<A: Allocator + Copy> StreamingEvaluator<A> {
    /// Begins to evaluate a circuit on an active label for each input wire, where AND gates are numbered from `first`
    /// on, as [`evaluate_labels`](crate::evaluate_labels) does. It evaluates the gates before the first AND gate. It
    /// allocates once, for the labels. The caller ensures that there are as many labels as input wires, and that
    /// `first` is one for this circuit's AND gates, as [`FirstAnd::new`] returns it.
    pub fn begin<C: Allocator>(
        alloc: A,
        circuit: &Circuit<C>,
        first: FirstAnd,
        inputs: &[Label],
    ) -> Result<StreamingEvaluator<A>, Memory>
        requires inputs { length inputs.now ≡ input_wires circuit.now }
        requires numbers { first + and_count circuit.now ≤ 2 ^ 62 }
        ensures begun { IfOk result (IsEvaluatorOf circuit.now) }
        ensures so_far { IfOk result (IsEvaluatedSoFar circuit.now inputs.now []) }
        ensures first { IfOk result (λ e. e.first ≡ first) }
    {
        circuit.law_lawful();
        let labels = padded_labels(alloc, circuit.wires(), inputs)?;
        let mut evaluator = StreamingEvaluator {
            first,
            labels,
            gates: 0,
            used: 0,
        };
        evaluator.advance(circuit, &[]);
        Ok(evaluator)
    }

    /// Evaluates the next AND gates with these row pairs, and the gates before the AND gate that follows, so that all
    /// gates are evaluated once the last row pair is used. It can't fail, and doesn't allocate. The caller ensures that
    /// the evaluator was begun with this circuit, and that no more row pairs come than are
    /// [left](StreamingEvaluator::left).
    pub fn feed<C: Allocator>(&mut self, circuit: &Circuit<C>, rows: &[RowPair])
        requires begun { IsEvaluatorOf circuit.now self.old }
        requires room { self.old.used + length rows.now ≤ and_count circuit.now }
        ensures begun { IsEvaluatorOf circuit.now self.new }
        ensures first { self.new.first ≡ self.old.first }
        ensures used { self.new.used ≡ self.old.used + length rows.now }
        ensures piece { EvaluatesPiece circuit.now self.old rows.now self.new }
    {
        self.advance(circuit, rows);
    }

    /// Evaluates the next AND gates, as [`feed`](StreamingEvaluator::feed) does. The caller ensures that the first
    /// gates of this circuit are evaluated, up to any one, and that as many AND gates are left.
    fn advance<C: Allocator>(&mut self, circuit: &Circuit<C>, rows: &[RowPair])
        requires begun { IsBegunEvaluator circuit.now self.old }
        requires room { self.old.used + length rows.now ≤ and_count circuit.now }
        ensures begun { IsEvaluatorOf circuit.now self.new }
        ensures first { self.new.first ≡ self.old.first }
        ensures used { self.new.used ≡ self.old.used + length rows.now }
        ensures piece { EvaluatesPiece circuit.now self.old rows.now self.new }
    {
        circuit.law_lawful();
        let alloc = *self.labels.allocator();
        let labels = mem::replace(&mut self.labels, Vec::new(alloc));
        let begun = ActiveTable::new(self.first.plus(self.used), labels);
        let (active, to) = evaluate_piece(circuit, begun, self.gates, rows);
        self.labels = active.into_labels();
        self.gates = to;
        self.used += rows.len() as u32;
    }

    /// How many row pairs are used.
    pub fn used(&self) -> u32
        ensures { result ≡ self.now.used }
    {
        self.used
    }

    /// How many row pairs are left to use. The caller ensures that the evaluator was begun with this circuit.
    pub fn left<C: Allocator>(&self, circuit: &Circuit<C>) -> u32
        requires { IsEvaluatorOf circuit.now self.now }
        ensures { self.now.used + result ≡ and_count circuit.now }
    {
        circuit.and_count() - self.used
    }

    /// Whether all row pairs are used, and so all gates are evaluated.
    pub fn is_whole<C: Allocator>(&self, circuit: &Circuit<C>) -> bool
        ensures { IsTrue result ↔ (self.now.used ≡ and_count circuit.now) }
    {
        self.used == circuit.and_count()
    }

    /// The active labels of the output wires, in order: those that [`evaluate_labels`](crate::evaluate_labels) returns
    /// on all row pairs. The caller ensures that the evaluator was begun with this circuit, and that all row pairs are
    /// used.
    pub fn output_labels<C: Allocator>(&self, circuit: &Circuit<C>) -> &[Label]
        requires begun { IsEvaluatorOf circuit.now self.now }
        requires whole { self.now.used ≡ and_count circuit.now }
        ensures count { length result.now ≡ output_wires circuit.now }
        ensures labels { (inputs : List ℕ) (rows : List RowPair)
            → IsEvaluatedSoFar circuit.now inputs rows self.now
            → AreOutputLabels self.now.first circuit.now rows inputs result.now }
    {
        circuit.law_lawful();
        output_labels(circuit, &self.labels)
    }
}
