//! The active labels of a circuit's wires, gate after gate. AND gates are evaluated four at a time.

ghost use Rattle.std.specs.Prelude.{◌≡◌, ◌≢◌, ◌<◌, [], ℕ, IsTrue, false, length, slice_index, slice_set};
ghost use Rattle.std.specs.List.{list_any};
ghost use Rattle.gc_netlist.specs.Circuit.{EachRead, is_and, reads};
ghost use Rattle.gc_half.specs.Hash.{hash, numbered_from};
ghost use Rattle.gc_half.specs.OneGate.{first_read, second_read};
ghost use Rattle.gc_half.specs.Evaluation.{active_of, row_at};
ghost use Rattle.gc_half.specs.Waiting.{NoneSets, active_label_by_step};

use crate::first::FirstAnd;
use crate::garbling::RowPair;
use crate::half_gate::{AndStep, eval_and_from, eval_four_ands_from, eval_two_ands_from};
use crate::one_gate::{evaluate_gate, labels_read};
use crate::waiting::WaitingGates;
use gc_circuit::{Gate, Operation};
use gc_label::Label;
use std::alloc::{Allocator, Global};
use std::marker::Model;

/// The active label of each wire. Up to three AND gates may wait: the labels of the wires that they set are not in
/// the table yet. They are evaluated together with the fourth AND gate, or without it before a gate that reads such a
/// wire.
#[derive(Drop)]
pub(crate) struct ActiveTable<A: Allocator = Global> {
    first: FirstAnd,
    labels: Vec<Label, A>,
    waiting: WaitingGates<AndStep>,
}

impl<A: Allocator> Model for ActiveTable<A> {
    ghost use Rattle.std.specs.Prelude.{◌<◌, length};
    ghost use Rattle.gc_half.specs.Hash.{hash, numbered_from};
    ghost use Rattle.gc_half.specs.Waiting.{ActiveTableParts, EachSets, gates_in, with_waiting, active_label_by_step};

    ghost Value = { ActiveTableParts };

    ghost view = { λ t. record {
      first = t.first;
      labels = with_waiting (active_label_by_step (numbered_from t.first hash))
          t.labels.items (gates_in t.waiting);
      waiting = gates_in t.waiting;
    } };

    ghost invariant = { λ t. EachSets (λ set. set < length t.labels.items) (gates_in t.waiting) };
}

impl<A: Allocator> ActiveTable<A> {
    /// A table of these labels, where no gate waits.
    pub(crate) fn new(first: FirstAnd, labels: Vec<Label, A>) -> ActiveTable<A>
        ensures numbered { result.first ≡ first }
        ensures labels { result.labels ≡ labels.items }
        ensures waiting { result.waiting ≡ [] }
    {
        ActiveTable {
            first,
            labels,
            waiting: WaitingGates::new(),
        }
    }

    /// Evaluates one more gate, or has it wait. An AND gate is the k-th, counted from 0. The caller ensures that there
    /// are the wires and the row pair, and that no gate that waits sets the same wire.
    #[inline(always)]
    pub(crate) fn step(&mut self, k: u32, rows: &[RowPair], gate: Gate)
        requires row { IsTrue (is_and gate.operation) → k < length rows.now }
        requires read { EachRead (λ w. w < length self.old.labels) gate.operation }
        requires place { gate.set < length self.old.labels }
        requires once { NoneSets gate.set self.old.waiting }
        ensures numbered { self.new.first ≡ self.old.first }
        ensures labels { self.new.labels ≡ slice_set self.old.labels gate.set
            (active_of (numbered_from self.old.first hash) (slice_index self.old.labels)
            k (row_at rows.now k) gate.operation) }
        ensures waiting { (w : ℕ) → w ≢ gate.set → NoneSets w self.old.waiting
            → NoneSets w self.new.waiting }
    {
        // Most gates are XOR: in a branch of their own the compiler knows the operation and tests it once.
        if let Operation::Xor(_, _) = gate.operation {
            self.make_read(gate.operation);
            let (a, b) = self.read(gate.operation);
            self.put(gate.set, a.xor(b));
            return;
        }
        self.make_read(gate.operation);
        let read = self.read(gate.operation);
        if gate.operation.is_and() {
            let step = AndStep {
                k,
                rows: rows[k as usize],
                a: read.0,
                b: read.1,
            };
            self.join(step, gate.set);
        } else {
            let label = evaluate_gate(k, rows, gate.operation, read);
            self.put(gate.set, label);
        }
    }

    /// The labels of all wires.
    pub(crate) fn into_labels(mut self) -> Vec<Label, A>
        ensures { result.items ≡ self.labels }
    {
        self.make_waiting();
        let ActiveTable {
            first: _,
            labels,
            waiting: _,
        } = self;
        labels
    }

    /// Evaluates the gates that wait where an operation reads a wire that one of them sets.
    #[inline(always)]
    fn make_read(&mut self, operation: Operation)
        ensures numbered { self.new.first ≡ self.old.first }
        ensures labels { self.new.labels ≡ self.old.labels }
        ensures waiting { (w : ℕ) → NoneSets w self.old.waiting → NoneSets w self.new.waiting }
        ensures unread { list_any (λ waits. reads operation waits.set) self.new.waiting ≡ false }
    {
        if self.waiting.are_read(operation) {
            self.make_waiting();
        }
    }

    /// The labels of the wires that an operation reads first and second. The caller ensures that no gate that waits
    /// sets one of these wires.
    #[tactic(auto, using(crate::proofs::WaitingLemmas::reads_with_waiting))]
    #[inline(always)]
    fn read(&self, operation: Operation) -> (Label, Label)
        requires wires { EachRead (λ w. w < length self.now.labels) operation }
        requires unread { list_any (λ waits. reads operation waits.set) self.now.waiting ≡ false }
        ensures first { result.0 ≡ first_read (slice_index self.now.labels) operation }
        ensures second { result.1 ≡ second_read (slice_index self.now.labels) operation }
    {
        labels_read(&self.labels, operation)
    }

    /// Evaluates an AND gate together with three that wait, or has it wait.
    #[inline(never)]
    fn join(&mut self, step: AndStep, set: u32)
        requires place { set < length self.old.labels }
        ensures numbered { self.new.first ≡ self.old.first }
        ensures labels { self.new.labels ≡ slice_set self.old.labels set
            (active_label_by_step (numbered_from self.old.first hash) step) }
        ensures waiting { (w : ℕ) → w ≢ set → NoneSets w self.old.waiting
            → NoneSets w self.new.waiting }
    {
        let WaitingGates {
            first: Some(a),
            second: Some(b),
            third: Some(c),
        } = self.waiting
        else {
            self.waiting.push(step, set);
            return;
        };
        self.waiting.clear();
        let [first, second, third, last] = eval_four_ands_from(
            self.first,
            [a.gate, b.gate, c.gate, step],
        );
        self.labels[a.set as usize] = first;
        self.labels[b.set as usize] = second;
        self.labels[c.set as usize] = third;
        self.labels[set as usize] = last;
    }

    /// Gives a wire its label. The caller ensures that no gate that waits sets the same wire.
    #[tactic(auto, using(crate::proofs::WaitingLemmas::with_waiting_put))]
    #[inline(always)]
    fn put(&mut self, wire: u32, label: Label)
        requires place { wire < length self.old.labels }
        requires once { NoneSets wire self.old.waiting }
        ensures numbered { self.new.first ≡ self.old.first }
        ensures labels { self.new.labels ≡ slice_set self.old.labels wire label }
        ensures waiting { self.new.waiting ≡ self.old.waiting }
    {
        self.labels[wire as usize] = label;
    }

    /// Evaluates the gates that wait: all at once. Three take as long as four.
    #[inline(never)]
    fn make_waiting(&mut self)
        ensures numbered { self.new.first ≡ self.old.first }
        ensures labels { self.new.labels ≡ self.old.labels }
        ensures waiting { self.new.waiting ≡ [] }
    {
        let WaitingGates {
            first,
            second,
            third,
        } = self.waiting;
        self.waiting.clear();
        let Some(a) = first else {
            return;
        };
        let Some(b) = second else {
            self.labels[a.set as usize] = eval_and_from(self.first, a.gate);
            return;
        };
        let Some(c) = third else {
            let (first, second) = eval_two_ands_from(self.first, a.gate, b.gate);
            self.labels[a.set as usize] = first;
            self.labels[b.set as usize] = second;
            return;
        };
        let [first, second, third, _] = eval_four_ands_from(
            self.first,
            [a.gate, b.gate, c.gate, c.gate],
        );
        self.labels[a.set as usize] = first;
        self.labels[b.set as usize] = second;
        self.labels[c.set as usize] = third;
    }
}
