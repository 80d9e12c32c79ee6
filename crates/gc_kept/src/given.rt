//! What a garbling is made from, other than a seed.

ghost use Rattle.std.specs.Prelude.{◌≡◌, ◌+◌, ◌^◌, ◌≤◌, IsTrue, length, IfOk, IfErr, OnOk};
ghost use Rattle.gc_netlist.specs.Circuit.{and_count, input_wires};
ghost use Rattle.gc_label.specs.Label.{colour, label_of_bytes};
ghost use Rattle.gc_kept.specs.Labels.{AreLabels, HasFromLabelsFault};

use crate::circuit::KeptCircuit;
use crate::fault::KeptFault;
use gc_file::labels_from_bytes;
use gc_file::sizes::LABEL;
use gc_half::FirstAnd;
use gc_label::{Label, Offset};
use std::alloc::Global;

/// What a garbling is made from, other than a seed, as bytes.
#[derive(Clone, Copy)]
pub struct StartBytes<'a> {
    /// The offset.
    pub offset: &'a [u8; 16],
    /// The zero labels of the input wires, one after another.
    pub zero_labels: &'a [u8],
    /// The number of the first AND gate.
    pub first: u64,
}

/// An offset, a zero label for each input wire, and the number of the first AND gate.
#[derive(Drop)]
pub(crate) struct Given {
    pub(crate) offset: Offset,
    pub(crate) labels: Vec<Label, Global>,
    pub(crate) first: FirstAnd,
}

impl KeptCircuit {
    /// The offset, the zero labels and the first AND gate that are given. It refuses another number of bytes (66), then
    /// an offset of colour 0 and a first AND gate whose sum with the number of AND gates is above 2^62 (60).
    #[tactic(auto, using(crate::proofs::PieceLemmas::length_labels))]
    pub(crate) fn given(&self, alloc: Global, start: StartBytes<'_>) -> Result<Given, KeptFault>
        ensures offset { IfOk result (λ g. g.offset ≡ label_of_bytes start.entry.offset.now) }
        ensures odd { IfOk result (λ g. IsTrue (colour g.offset)) }
        ensures first { IfOk result (λ g. g.first ≡ start.entry.first) }
        ensures room { OnOk result (start.entry.first + and_count self.now.netlist ≤ 2 ^ 62) }
        ensures labels { IfOk result (λ g.
            AreLabels start.entry.zero_labels.now g.labels.items) }
        ensures count { IfOk result (λ g. length g.labels.items ≡ input_wires self.now.netlist) }
        ensures fault { IfErr result (HasFromLabelsFault self.now.netlist
            start.entry.offset.now start.entry.zero_labels.now start.entry.first) }
    {
        let circuit = self.circuit();
        if start.zero_labels.len() != LABEL * circuit.input_wires() as usize {
            return Err(KeptFault::WrongSize);
        }
        let Some(offset) = Offset::new(Label::from_bytes(*start.offset)) else {
            return Err(KeptFault::BadArgument);
        };
        let Some(first) = FirstAnd::new(start.first, circuit.and_count()) else {
            return Err(KeptFault::BadArgument);
        };
        let Ok(labels) = labels_from_bytes(alloc, start.zero_labels) else {
            return Err(KeptFault::Garbling);
        };
        Ok(Given {
            offset,
            labels,
            first,
        })
    }
}
