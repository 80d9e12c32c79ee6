//! Garbling a circuit in pieces: its row pairs leave as they are made.

ghost use Rattle.std.specs.Prelude.{◌≡◌, ◌↔◌, ◌<◌, ◌≤◌, ◌+◌, ◌-◌, ◌^◌, ℕ, List, [], IsTrue, Some, length, min, slice_get, slice_index, take, IfOk};
ghost use Rattle.gc_netlist.specs.Circuit.{and_count, input_wires, output_wires};
ghost use Rattle.gc_label.specs.Seed.{offset_of};
ghost use Rattle.gc_half.specs.Garbling.{GarblingParts, IsGarbledFrom};
ghost use Rattle.gc_half.specs.Joined.{output_zero_labels};
ghost use Rattle.gc_half.specs.Pieces.{IsBegunGarbler};
ghost use Rattle.gc_half.specs.Streaming.{IsGarbledSoFar, IsGarblerOf, GarblesPiece, KeepsFrom, input_labels};
ghost use Rattle.gc_half.specs.declared.garbling.RowPair.{RowPair};

use crate::evaluate::output_labels;
use crate::first::FirstAnd;
use crate::garble::{Start, garble_piece};
use crate::garbling::RowPair;
use crate::labels::{input_zero_labels, padded_labels};
use crate::zero_table::ZeroTable;
use gc_circuit::{Circuit, Memory};
use gc_label::{Label, Offset, Seed, offset};
use std::alloc::{Allocator, Global};
use std::marker::Model;
use std::mem;

/// A garbling in progress, in file order. It gives out the row pairs as it makes them, and doesn't keep them: it has a
/// zero label of 16 bytes for each wire, and nothing else that grows with the circuit. Only beginning allocates.
#[derive(Drop)]
pub struct StreamingGarbler<A: Allocator = Global> {
    offset: Offset,
    first: FirstAnd,
    labels: Vec<Label, A>,
    gates: u32,
    made: u32,
}

impl<A: Allocator> Model for StreamingGarbler<A> {
    ghost use Rattle.gc_half.specs.Streaming.{StreamingGarblerParts};

    ghost Value = { StreamingGarblerParts };

    ghost view = { λ g. record {
      offset = g.offset;
      first = g.first;
      labels = g.labels.items;
      gates = g.gates;
      made = g.made;
    } };
}

impl<A: Allocator + Copy> StreamingGarbler<A> {
    /// Begins to garble a circuit from an offset, a zero label for each input wire, and the number of the first AND
    /// gate, as [`garble_from`](crate::garble_from) does. It garbles the gates before the first AND gate. It allocates
    /// once, for the labels. The caller ensures that there are as many zero labels as input wires, and that the number
    /// is one for this circuit's AND gates, as [`FirstAnd::new`] returns it.
    pub fn begin<C: Allocator>(
        alloc: A,
        circuit: &Circuit<C>,
        start: Start<'_>,
    ) -> Result<StreamingGarbler<A>, Memory>
        requires inputs { length start.zero_labels.now ≡ input_wires circuit.now }
        requires numbers { start.first + and_count circuit.now ≤ 2 ^ 62 }
        ensures begun { IfOk result (IsGarblerOf circuit.now) }
        ensures so_far { IfOk result
            (IsGarbledSoFar circuit.now start.entry.zero_labels.now []) }
        ensures offset { IfOk result (λ g. g.offset ≡ start.entry.offset) }
        ensures first { IfOk result (λ g. g.first ≡ start.entry.first) }
    {
        circuit.law_lawful();
        let labels = padded_labels(alloc, circuit.wires(), start.zero_labels)?;
        let mut garbler = StreamingGarbler {
            offset: start.offset,
            first: start.first,
            labels,
            gates: 0,
            made: 0,
        };
        garbler.advance(circuit, &mut []);
        Ok(garbler)
    }

    /// Begins to garble a circuit under a seed, as [`garble_one_thread`](crate::garble_one_thread) does. It garbles the
    /// gates before the first AND gate. It allocates once, for the labels.
    pub fn begin_under_seed<C: Allocator>(
        alloc: A,
        circuit: &Circuit<C>,
        seed: &Seed,
    ) -> Result<StreamingGarbler<A>, Memory>
        ensures begun { IfOk result (IsGarblerOf circuit.now) }
        ensures so_far { IfOk result
            (IsGarbledSoFar circuit.now (input_labels circuit.now seed.now) []) }
        ensures offset { IfOk result (λ g. g.offset ≡ offset_of seed.now) }
        ensures first { IfOk result (λ g. g.first ≡ 0) }
    {
        circuit.law_lawful();
        let labels = input_zero_labels(alloc, circuit, seed)?;
        let mut garbler = StreamingGarbler {
            offset: offset(seed),
            first: FirstAnd::ZERO,
            labels,
            gates: 0,
            made: 0,
        };
        garbler.advance(circuit, &mut []);
        Ok(garbler)
    }

    /// Makes the row pairs of the next AND gates, in file order, and puts them in the first of these places: as many as
    /// there are places or AND gates left. It returns how many; the other places stay the same. It also garbles the
    /// gates before the AND gate that follows, so that all gates are garbled once the last row pair is made. It can't
    /// fail, and doesn't allocate. The caller ensures that the garbler was begun with this circuit.
    pub fn next<C: Allocator>(&mut self, circuit: &Circuit<C>, rows: &mut [RowPair]) -> u32
        requires { IsGarblerOf circuit.now self.old }
        ensures begun { IsGarblerOf circuit.now self.new }
        ensures offset { self.new.offset ≡ self.old.offset }
        ensures first { self.new.first ≡ self.old.first }
        ensures made { self.new.made ≡ self.old.made + result }
        ensures count { result ≡ min (length rows.old) (and_count circuit.now - self.old.made) }
        ensures piece { GarblesPiece circuit.now self.old (take result rows.new) self.new }
        ensures rest { KeepsFrom result rows.old rows.new }
    {
        self.advance(circuit, rows)
    }

    /// Makes the row pairs of the next AND gates, as [`next`](StreamingGarbler::next) does. The caller ensures that the
    /// first gates of this circuit are garbled, up to any one.
    fn advance<C: Allocator>(&mut self, circuit: &Circuit<C>, rows: &mut [RowPair]) -> u32
        requires { IsBegunGarbler circuit.now self.old }
        ensures begun { IsGarblerOf circuit.now self.new }
        ensures offset { self.new.offset ≡ self.old.offset }
        ensures first { self.new.first ≡ self.old.first }
        ensures made { self.new.made ≡ self.old.made + result }
        ensures count { result ≡ min (length rows.old) (and_count circuit.now - self.old.made) }
        ensures piece { GarblesPiece circuit.now self.old (take result rows.new) self.new }
        ensures rest { KeepsFrom result rows.old rows.new }
    {
        circuit.law_lawful();
        let alloc = *self.labels.allocator();
        let labels = mem::replace(&mut self.labels, Vec::new(alloc));
        let first = self.first.plus(self.made);
        let begun = ZeroTable::new(self.offset, first, labels);
        let (table, to) = garble_piece(circuit, begun, self.gates, rows);
        let (labels, piece) = table.finish(rows);
        self.labels = labels;
        self.gates = to;
        self.made += piece;
        piece
    }

    /// The offset.
    pub fn offset(&self) -> Offset
        ensures { result ≡ self.now.offset }
    {
        self.offset
    }

    /// How many row pairs are made.
    pub fn made(&self) -> u32
        ensures { result ≡ self.now.made }
    {
        self.made
    }

    /// How many row pairs are left to make. The caller ensures that the garbler was begun with this circuit.
    pub fn left<C: Allocator>(&self, circuit: &Circuit<C>) -> u32
        requires { IsGarblerOf circuit.now self.now }
        ensures { self.now.made + result ≡ and_count circuit.now }
    {
        circuit.and_count() - self.made
    }

    /// Whether all row pairs are made, and so all gates are garbled.
    pub fn is_whole<C: Allocator>(&self, circuit: &Circuit<C>) -> bool
        ensures { IsTrue result ↔ (self.now.made ≡ and_count circuit.now) }
    {
        self.made == circuit.and_count()
    }

    /// The zero labels of all wires: of the input wires from the beginning on, and of any other once the gate that sets
    /// it is garbled; before, 16 zero bytes.
    pub fn zero_labels(&self) -> &[Label]
        ensures { result.now ≡ self.now.labels }
    {
        &self.labels
    }

    /// The zero label of a wire: of an input wire from the beginning on, and of any other once the gate that sets it is
    /// garbled; before, 16 zero bytes. The caller ensures that there is such a wire.
    pub fn zero_label(&self, wire: u32) -> Label
        requires { wire < length self.now.labels }
        ensures { slice_get self.now.labels wire ≡ Some result }
    {
        self.labels[wire as usize]
    }

    /// The zero label of each wire.
    pub(crate) fn into_labels(self) -> Vec<Label, A>
        ensures { result.items ≡ self.labels }
    {
        let StreamingGarbler {
            offset: _,
            first: _,
            labels,
            gates: _,
            made: _,
        } = self;
        labels
    }

    /// The zero labels of the output wires, in order: those of the garbling that [`garble_from`](crate::garble_from)
    /// returns. Their colours are the decode bits. The caller ensures that the garbler was begun with this circuit, and
    /// that all row pairs are made.
    pub fn output_zero_labels<C: Allocator>(&self, circuit: &Circuit<C>) -> &[Label]
        requires begun { IsGarblerOf circuit.now self.now }
        requires whole { self.now.made ≡ and_count circuit.now }
        ensures count { length result.now ≡ output_wires circuit.now }
        ensures labels { (given : List ℕ) (rows : List RowPair)
            → IsGarbledSoFar circuit.now given rows self.now → (all : GarblingParts)
            → IsGarbledFrom self.now.offset (slice_index given) self.now.first circuit.now all
            → result.now ≡ output_zero_labels all }
    {
        circuit.law_lawful();
        output_labels(circuit, &self.labels)
    }
}
