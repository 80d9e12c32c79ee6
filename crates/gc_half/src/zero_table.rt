//! The zero labels of a circuit, gate after gate, while a piece of it is garbled. AND gates are garbled two at a time.

ghost use Rattle.std.specs.Prelude.{◌≡◌, ◌≢◌, ◌<◌, ◌≤◌, ◌+◌, ◌^◌, [], ◌∷◌, ◌++◌, ℕ, false, cond, length, slice_index, slice_set, take};
ghost use Rattle.std.specs.List.{list_any};
ghost use Rattle.gc_netlist.specs.Circuit.{EachRead, is_and, reads};
ghost use Rattle.gc_half.specs.Hash.{hash, numbered_from};
ghost use Rattle.gc_half.specs.HalfGate.{and_zero};
ghost use Rattle.gc_half.specs.OneGate.{first_read, second_read, row_pair, gate_rows};
ghost use Rattle.gc_half.specs.Garbling.{zero_of};
ghost use Rattle.gc_half.specs.Canonical.{with_row_pair};
ghost use Rattle.gc_half.specs.Streaming.{KeepsFrom};
ghost use Rattle.gc_half.specs.Waiting.{NoneSets, rows_made};
ghost use Rattle.gc_half.specs.declared.garbling.RowPair.{RowPair};

use crate::first::FirstAnd;
use crate::garbling::RowPair;
use crate::half_gate::{AndGate, garble_and_from, garble_two_ands_from};
use crate::one_gate::{garble_gate, labels_read};
use crate::waiting::WaitingGate;
use gc_circuit::{Gate, Operation};
use gc_label::{Label, Offset};
use std::alloc::{Allocator, Global};
use std::marker::Model;

/// The zero label of each wire, while a piece of the circuit is garbled into places for its row pairs. The last AND
/// gate may wait: its label and its row pair are not there yet. It is garbled together with the next AND gate, or alone
/// before a gate that reads the wire that it sets. No call allocates.
#[derive(Drop)]
pub(crate) struct ZeroTable<A: Allocator = Global> {
    offset: Offset,
    first: FirstAnd,
    labels: Vec<Label, A>,
    made: u32,
    waiting: Option<WaitingGate<AndGate>>,
}

impl<A: Allocator> Model for ZeroTable<A> {
    ghost use Rattle.std.specs.Prelude.{◌<◌, length};
    ghost use Rattle.std.specs.Option.{option_to_list};
    ghost use Rattle.gc_half.specs.Hash.{hash, numbered_from};
    ghost use Rattle.gc_half.specs.Waiting.{ZeroTableParts, EachSets, with_waiting, zero_label_of_gate};

    ghost Value = { ZeroTableParts };

    ghost view = { λ t. record {
      offset = t.offset;
      first = t.first;
      labels = with_waiting (zero_label_of_gate (numbered_from t.first hash))
          t.labels.items (option_to_list t.waiting);
      made = t.made;
      waiting = option_to_list t.waiting;
    } };

    ghost invariant = { λ t. EachSets (λ w. w < length t.labels.items) (option_to_list t.waiting) };
}

impl<A: Allocator> ZeroTable<A> {
    /// A table of these labels, where no row pair is made, and no gate waits. AND gates are numbered from `first` on.
    pub(crate) fn new(offset: Offset, first: FirstAnd, labels: Vec<Label, A>) -> ZeroTable<A>
        ensures { result ≡ record {
          offset = offset;
          first = first;
          labels = labels.items;
          made = 0;
          waiting = [];
        } }
    {
        ZeroTable {
            offset,
            first,
            labels,
            made: 0,
            waiting: None,
        }
    }

    /// Garbles one more gate, or has it wait. The caller ensures that there are the wires, and a place for the row pair
    /// of an AND gate, and that no gate that waits sets the same wire.
    #[inline(always)]
    pub(crate) fn step(&mut self, rows: &mut [RowPair], gate: Gate)
        requires read { EachRead (λ w. w < length self.old.labels) gate.operation }
        requires place { gate.set < length self.old.labels }
        requires once { NoneSets gate.set self.old.waiting }
        requires room { self.old.made + length self.old.waiting + cond (is_and gate.operation) 1 0
            ≤ length rows.old }
        requires number { self.old.made + length self.old.waiting < 2 ^ 31 }
        ensures offset { self.new.offset ≡ self.old.offset }
        ensures numbered { self.new.first ≡ self.old.first }
        ensures labels { self.new.labels ≡ slice_set self.old.labels gate.set
            (zero_of (numbered_from self.old.first hash) self.old.offset
            (slice_index self.old.labels) (self.old.made + length self.old.waiting)
            gate.operation) }
        ensures rows { rows_made self.new rows.new ≡ with_row_pair (rows_made self.old rows.old)
            (gate_rows (numbered_from self.old.first hash) self.old.offset
            (self.old.made + length self.old.waiting) gate.operation
            (first_read (slice_index self.old.labels) gate.operation)
            (second_read (slice_index self.old.labels) gate.operation)) }
        ensures rest { KeepsFrom (self.new.made + length self.new.waiting) rows.old rows.new }
        ensures counted { self.new.made + length self.new.waiting
            ≡ self.old.made + length self.old.waiting + cond (is_and gate.operation) 1 0 }
        ensures waiting { (w : ℕ) → w ≢ gate.set → NoneSets w self.old.waiting
            → NoneSets w self.new.waiting }
    {
        // A branch of its own for XOR, as where gates are evaluated.
        if let Operation::Xor(_, _) = gate.operation {
            self.make_read(rows, gate.operation);
            let (a, b) = self.read(gate.operation);
            self.put(gate.set, a.xor(b));
            return;
        }
        self.make_read(rows, gate.operation);
        let read = self.read(gate.operation);
        if let Operation::And(_, _) = gate.operation {
            self.pair(rows, read, gate.set);
            return;
        }
        let (label, _) = garble_gate(0, self.offset, gate.operation, read);
        self.put(gate.set, label);
    }

    /// The labels of all wires, and how many row pairs there are.
    pub(crate) fn finish(mut self, rows: &mut [RowPair]) -> (Vec<Label, A>, u32)
        requires room { self.made + length self.waiting ≤ length rows.old }
        requires number { self.made + length self.waiting < 2 ^ 32 }
        ensures labels { result.0.items ≡ self.labels }
        ensures made { result.1 ≡ self.made + length self.waiting }
        ensures rows { take result.1 rows.new ≡ rows_made self rows.old }
        ensures rest { KeepsFrom result.1 rows.old rows.new }
    {
        self.make_waiting(rows);
        let ZeroTable {
            offset: _,
            first: _,
            labels,
            made,
            waiting: _,
        } = self;
        (labels, made)
    }

    /// Garbles the gate that waits where an operation reads the wire that it sets.
    #[inline(always)]
    fn make_read(&mut self, rows: &mut [RowPair], operation: Operation)
        requires room { self.old.made + length self.old.waiting ≤ length rows.old }
        requires number { self.old.made + length self.old.waiting < 2 ^ 32 }
        ensures offset { self.new.offset ≡ self.old.offset }
        ensures numbered { self.new.first ≡ self.old.first }
        ensures labels { self.new.labels ≡ self.old.labels }
        ensures rows { rows_made self.new rows.new ≡ rows_made self.old rows.old }
        ensures rest { KeepsFrom (self.new.made + length self.new.waiting) rows.old rows.new }
        ensures counted { self.new.made + length self.new.waiting
            ≡ self.old.made + length self.old.waiting }
        ensures waiting { (w : ℕ) → NoneSets w self.old.waiting → NoneSets w self.new.waiting }
        ensures unread { list_any (λ waits. reads operation waits.set) self.new.waiting ≡ false }
    {
        if let Some(waits) = &self.waiting {
            if operation.reads(waits.set) {
                self.make_waiting(rows);
            }
        }
    }

    /// The labels of the wires that an operation reads first and second. The caller ensures that no gate that waits
    /// sets one of these wires.
    #[tactic(auto, using(crate::proofs::WaitingLemmas::reads_with_waiting))]
    #[inline(always)]
    fn read(&self, operation: Operation) -> (Label, Label)
        requires wires { EachRead (λ w. w < length self.now.labels) operation }
        requires unread { list_any (λ waits. reads operation waits.set) self.now.waiting ≡ false }
        ensures first { result.0 ≡ first_read (slice_index self.now.labels) operation }
        ensures second { result.1 ≡ second_read (slice_index self.now.labels) operation }
    {
        labels_read(&self.labels, operation)
    }

    /// Garbles an AND gate, which reads these labels, together with the one that waits, or has it wait.
    #[inline(never)]
    fn pair(&mut self, rows: &mut [RowPair], read: (Label, Label), set: u32)
        requires place { set < length self.old.labels }
        requires room { self.old.made + length self.old.waiting < length rows.old }
        requires number { self.old.made + length self.old.waiting < 2 ^ 31 }
        ensures offset { self.new.offset ≡ self.old.offset }
        ensures numbered { self.new.first ≡ self.old.first }
        ensures labels { self.new.labels ≡ slice_set self.old.labels set
            (and_zero (numbered_from self.old.first hash)
            (self.old.made + length self.old.waiting) self.old.offset read.0 read.1) }
        ensures rows { rows_made self.new rows.new ≡ rows_made self.old rows.old
            ++ row_pair (numbered_from self.old.first hash) self.old.offset
            (self.old.made + length self.old.waiting) read.0 read.1 ∷ [] }
        ensures rest { KeepsFrom (self.new.made + length self.new.waiting) rows.old rows.new }
        ensures counted { self.new.made + length self.new.waiting
            ≡ self.old.made + length self.old.waiting + 1 }
        ensures waiting { (w : ℕ) → w ≢ set → NoneSets w self.new.waiting }
    {
        let (a, b) = read;
        let offset = self.offset;
        let k = self.made;
        let Some(waits) = self.waiting else {
            let gate = AndGate { k, offset, a, b };
            self.waiting = Some(WaitingGate { gate, set });
            return;
        };
        self.waiting = None;
        let gate = AndGate {
            k: k + 1,
            offset,
            a,
            b,
        };
        let (one, other) = garble_two_ands_from(self.first, waits.gate, gate);
        self.labels[waits.set as usize] = one.zero_label;
        self.labels[set as usize] = other.zero_label;
        self.push(rows, one.rows);
        self.push(rows, other.rows);
    }

    /// Gives a wire its label. The caller ensures that no gate that waits sets the same wire.
    #[inline(always)]
    fn put(&mut self, wire: u32, label: Label)
        requires place { wire < length self.old.labels }
        requires once { NoneSets wire self.old.waiting }
        ensures offset { self.new.offset ≡ self.old.offset }
        ensures numbered { self.new.first ≡ self.old.first }
        ensures labels { self.new.labels ≡ slice_set self.old.labels wire label }
        ensures made { self.new.made ≡ self.old.made }
        ensures waiting { self.new.waiting ≡ self.old.waiting }
    {
        self.labels[wire as usize] = label;
    }

    /// Garbles the gate that waits alone, if there is one.
    #[inline(never)]
    fn make_waiting(&mut self, rows: &mut [RowPair])
        requires room { self.old.made + length self.old.waiting ≤ length rows.old }
        requires number { self.old.made + length self.old.waiting < 2 ^ 32 }
        ensures offset { self.new.offset ≡ self.old.offset }
        ensures numbered { self.new.first ≡ self.old.first }
        ensures labels { self.new.labels ≡ self.old.labels }
        ensures rows { take self.new.made rows.new ≡ rows_made self.old rows.old }
        ensures rest { KeepsFrom self.new.made rows.old rows.new }
        ensures made { self.new.made ≡ self.old.made + length self.old.waiting }
        ensures waiting { self.new.waiting ≡ [] }
    {
        let Some(waits) = self.waiting else {
            return;
        };
        self.waiting = None;
        let garbled = garble_and_from(self.first, waits.gate);
        self.labels[waits.set as usize] = garbled.zero_label;
        self.push(rows, garbled.rows);
    }

    /// Puts a row pair in the next place. The caller ensures that there is one.
    #[inline(always)]
    fn push(&mut self, rows: &mut [RowPair], pair: RowPair)
        requires room { self.old.made < length rows.old }
        requires number { self.old.made + 1 < 2 ^ 32 }
        ensures counted { self.new ≡ record self.old { made = self.old.made + 1 } }
        ensures rows { take self.new.made rows.new ≡ take self.old.made rows.old ++ pair ∷ [] }
        ensures rest { KeepsFrom self.new.made rows.old rows.new }
    {
        rows[self.made as usize] = pair;
        self.made += 1;
    }
}
