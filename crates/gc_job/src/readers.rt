//! What an evaluation of a job reads of it.

ghost use Rattle.std.specs.Prelude.{◌≡◌, ℕ, ◌<◌, All, IfSome, IfNone, map, slice_index};
ghost use Rattle.gc_netlist.specs.Circuit.{IsSetBy, and_number, input_wires};
ghost use Rattle.gc_half.specs.Waiting.{active_label_of_step};
ghost use Rattle.gc_job.specs.ActiveLabels.{gates_of, active_from};

use crate::job::Job;
use crate::wiring::Wiring;
use gc_circuit::Operation;
use gc_half::{AndStep, eval_four_ands, eval_two_ands, evaluate_gate};
use gc_label::Label;
use std::alloc::Allocator;

/// A gate, and the labels of the wires that it reads first and second; one that it does not read is ignored.
#[derive(Clone, Copy, PartialEq, Eq, Debug)]
pub struct ReadGate {
    /// The gate's place in the file, counted from 0.
    pub gate: u32,
    /// The label of the wire that it reads first.
    pub first: Label,
    /// The label of the wire that it reads second.
    pub second: Label,
}

impl<'c, A: Allocator, C: Allocator> Job<'c, A, C> {
    /// The active label of an input wire. The caller ensures that it is one.
    #[inline]
    pub fn input(&self, wire: u32) -> Label
        requires { wire < input_wires self.now.circuit }
        ensures { result ≡ slice_index self.now.inputs wire }
    {
        self.law_whole();
        self.inputs()[wire as usize]
    }

    /// The gate that sets a wire, if one does. It doesn't allocate and goes through the gates; [`Wiring::setter`] reads
    /// a table. The caller ensures that there is such a wire.
    pub fn setter(&self, wire: u32) -> Option<u32>
        requires { wire < self.now.circuit.wires }
        ensures some { IfSome result (IsSetBy self.now.circuit wire) }
        ensures none { IfNone result ((g : ℕ) → IsSetBy self.now.circuit wire g → ⊥) }
    {
        let circuit = self.circuit();
        for gate in 0..circuit.gates() {
            if circuit.gate(gate).set == wire {
                return Some(gate);
            }
        }
        None
    }

    /// The active label of the wire that a gate sets, from those of the wires that it reads first and second; one that
    /// it does not read is ignored ("Two Halves Make a Whole", the procedure Ev). It doesn't allocate and counts the
    /// AND gates before the gate; [`Job::active_by`] reads a table. The caller ensures that there is such a gate.
    pub fn active(&self, gate: u32, first: Label, second: Label) -> Label
        requires { gate < gates_of self.now }
        ensures { result ≡ active_from self.now gate first second }
    {
        let read = ReadGate {
            gate,
            first,
            second,
        };
        self.active_at(self.and_number(gate), &read)
    }

    /// The same, with the tables of the job's circuit. The caller ensures that there is such a gate, and that the
    /// wiring is the circuit's.
    #[inline]
    pub fn active_by<B: Allocator>(&self, wiring: &Wiring<'c, B, C>, read: &ReadGate) -> Label
        requires gate { read.now.gate < gates_of self.now }
        requires wiring { wiring.now ≡ self.now.circuit }
        ensures { result ≡ active_from self.now read.now.gate read.now.first read.now.second }
    {
        self.active_at(wiring.and_number(read.gate), read)
    }

    /// The same, where this is the gate's AND number.
    #[inline]
    fn active_at(&self, number: u32, read: &ReadGate) -> Label
        requires gate { read.now.gate < gates_of self.now }
        requires number { number ≡ and_number self.now.circuit read.now.gate }
        ensures { result ≡ active_from self.now read.now.gate read.now.first read.now.second }
    {
        let operation = self.circuit().gate(read.gate).operation;
        evaluate_gate(number, self.rows(), operation, (read.first, read.second))
    }

    /// The active labels of the wires that two gates set, each as [`Job::active_by`] gives it. Two AND gates are
    /// evaluated at once. The caller ensures that there are such gates, and that the wiring is the circuit's.
    #[inline]
    pub fn active_two<B: Allocator>(
        &self,
        wiring: &Wiring<'c, B, C>,
        one: &ReadGate,
        other: &ReadGate,
    ) -> (Label, Label)
        requires gates { (one.now.gate < gates_of self.now) × (other.now.gate < gates_of self.now) }
        requires wiring { wiring.now ≡ self.now.circuit }
        ensures one { result.0
            ≡ active_from self.now one.now.gate one.now.first one.now.second }
        ensures other { result.1
            ≡ active_from self.now other.now.gate other.now.first other.now.second }
    {
        match (self.and_step(wiring, one), self.and_step(wiring, other)) {
            (Some(step), Some(other_step)) => eval_two_ands(step, other_step),
            _ => (self.active_by(wiring, one), self.active_by(wiring, other)),
        }
    }

    /// The active labels of the wires that four gates set, in the same way. Four AND gates are evaluated at once. The
    /// caller ensures that there are such gates, and that the wiring is the circuit's.
    #[inline]
    pub fn active_four<B: Allocator>(
        &self,
        wiring: &Wiring<'c, B, C>,
        gates: [ReadGate; 4],
    ) -> [Label; 4]
        requires gates { All (λ read. read.gate < gates_of self.now) gates }
        requires wiring { wiring.now ≡ self.now.circuit }
        ensures { result
            ≡ map (λ read. active_from self.now read.gate read.first read.second) gates }
    {
        let [a, b, c, d] = gates;
        let steps = (
            self.and_step(wiring, &a),
            self.and_step(wiring, &b),
            self.and_step(wiring, &c),
            self.and_step(wiring, &d),
        );
        match steps {
            (Some(a), Some(b), Some(c), Some(d)) => eval_four_ands([a, b, c, d]),
            _ => [
                self.active_by(wiring, &a),
                self.active_by(wiring, &b),
                self.active_by(wiring, &c),
                self.active_by(wiring, &d),
            ],
        }
    }

    /// What the evaluation of a gate takes, where it is an AND gate.
    #[inline]
    fn and_step<B: Allocator>(&self, wiring: &Wiring<'c, B, C>, read: &ReadGate) -> Option<AndStep>
        requires gate { read.now.gate < gates_of self.now }
        requires wiring { wiring.now ≡ self.now.circuit }
        ensures { IfSome result (λ step. active_label_of_step step
            ≡ active_from self.now read.now.gate read.now.first read.now.second) }
    {
        let k = wiring.and_number(read.gate);
        match self.circuit().gate(read.gate).operation {
            Operation::And(_, _) => Some(AndStep {
                k,
                rows: self.rows()[k as usize],
                a: read.first,
                b: read.second,
            }),
            _ => None,
        }
    }

    /// How many AND gates come before a gate in the file. The caller ensures that there is such a gate.
    fn and_number(&self, gate: u32) -> u32
        requires { gate < gates_of self.now }
        ensures { result ≡ and_number self.now.circuit gate }
    {
        let circuit = self.circuit();
        let mut number = 0u32;
        for i in 0..gate {
            if circuit.gate(i).operation.is_and() {
                number += 1;
            }
        }
        number
    }
}
