//! The garbling of a circuit.

ghost use Rattle.std.specs.Prelude.{◌≡◌, ◌↔◌, ◌<◌, ◌≤◌, ◌++◌, IfOk, IsTrue, length, slice_get, Some};
ghost use Rattle.gc_half.specs.Garbling.{decode_bits_of, FitsCircuit};

use gc_circuit::{Circuit, Memory};
use gc_label::Label;
use std::alloc::{Allocator, Global};
use std::marker::Model;

/// The two rows of an AND gate.
#[derive(Clone, Copy, PartialEq, Eq, Debug)]
pub struct RowPair {
    /// The row of the generator's half gate.
    pub generator: Label,
    /// The row of the evaluator's half gate.
    pub evaluator: Label,
}

/// What is in the place of a row pair that isn't made yet.
pub const NO_ROWS: RowPair = RowPair {
    generator: Label::ZERO,
    evaluator: Label::ZERO,
};

/// What garbling an AND gate gives.
#[derive(Clone, Copy, PartialEq, Eq, Debug)]
pub struct GarbledAnd {
    /// The zero label of the wire that it sets.
    pub zero_label: Label,
    /// Its row pair.
    pub rows: RowPair,
}

/// A given row pair that is not the one that was made.
#[derive(Clone, Copy, PartialEq, Eq, Debug)]
pub struct Mismatch {
    /// Its place among the row pairs, from 0.
    pub place: usize,
    /// The row pair that was given.
    pub given: RowPair,
    /// The row pair that was made.
    pub made: RowPair,
}

/// The zero label of each wire of a circuit, the row pair of each AND gate in file order, and the number of
/// output wires, which are the last ones. A wire that no gate sets and that is no input wire has the label
/// of 16 zero bytes.
#[derive(Drop)]
pub struct Garbling<A: Allocator = Global> {
    zero_labels: Vec<Label, A>,
    rows: Vec<RowPair, A>,
    outputs: u32,
}

impl<A: Allocator> Model for Garbling<A> {
    ghost use Rattle.std.specs.Prelude.{◌≤◌, length};
    ghost use Rattle.gc_half.specs.Garbling.{GarblingParts};

    ghost Value = { GarblingParts };

    ghost view = { λ g. record {
      zero_labels = g.zero_labels.items;
      rows = g.rows.items;
      outputs = g.outputs;
    } };

    ghost invariant = { λ g. g.outputs ≤ length g.zero_labels.items };
}

impl<A: Allocator> Garbling<A> {
    /// A garbling of these parts, which are moved in. The caller ensures that there are as many wires as outputs.
    pub fn from_parts(
        zero_labels: Vec<Label, A>,
        rows: Vec<RowPair, A>,
        outputs: u32,
    ) -> Garbling<A>
        requires { outputs ≤ length zero_labels.items }
        ensures { result ≡ record {
          zero_labels = zero_labels.items;
          rows = rows.items;
          outputs = outputs;
        } }
    {
        Garbling {
            zero_labels,
            rows,
            outputs,
        }
    }

    /// The zero label of a wire. The caller ensures that there is such a wire.
    pub fn zero_label(&self, wire: u32) -> Label
        requires { wire < length self.now.zero_labels }
        ensures { slice_get self.now.zero_labels wire ≡ Some result }
    {
        self.zero_labels[wire as usize]
    }

    /// The zero label of each wire.
    pub fn zero_labels(&self) -> &[Label]
        ensures { result.now ≡ self.now.zero_labels }
    {
        &self.zero_labels
    }

    /// The row pair of each AND gate, in file order.
    pub fn rows(&self) -> &[RowPair]
        ensures { result.now ≡ self.now.rows }
    {
        &self.rows
    }

    /// The zero label of each wire. The row pairs are dropped.
    pub fn into_zero_labels(self) -> Vec<Label, A>
        ensures { result.items ≡ self.zero_labels }
    {
        let Garbling {
            zero_labels,
            rows: _,
            outputs: _,
        } = self;
        zero_labels
    }

    /// How many output wires there are.
    pub fn outputs(&self) -> u32
        ensures count { result ≡ self.now.outputs }
        ensures bound { self.now.outputs ≤ length self.now.zero_labels }
    {
        self.outputs
    }

    /// The decode bit of output wire i, counted from 0: the colour of its zero label. The caller ensures that there is
    /// such an output wire.
    pub fn decode_bit(&self, i: u32) -> bool
        requires { i < self.now.outputs }
        ensures { slice_get (decode_bits_of self.now) i ≡ Some result }
    {
        let first = self.zero_labels.len() - self.outputs as usize;
        self.zero_labels[first + i as usize].colour()
    }

    /// Whether the numbers of wires, of AND gates and of outputs are the circuit's.
    pub fn fits<C: Allocator>(&self, circuit: &Circuit<C>) -> bool
        ensures { IsTrue result ↔ FitsCircuit circuit.now self.now }
    {
        self.zero_labels.len() == circuit.wires() as usize
            && self.rows.len() == circuit.and_count() as usize
            && self.outputs == circuit.output_wires()
    }
}
