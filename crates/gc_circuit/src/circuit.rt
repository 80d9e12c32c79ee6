ghost use Rattle.std.specs.Prelude.{◌≡◌, ◌<◌, ◌↔◌, length, slice_get, Some, IsTrue, IfOk};
ghost use Rattle.gc_netlist.specs.Circuit.{netlist_of, is_and, and_count, input_wires, output_wires, IsLawful, IsSummary};
ghost use Rattle.gc_circuit.specs.Gates.{with_gates};

use crate::gates::Gates;
use crate::memory::Memory;
use crate::read::Widths;
use gc_netlist::Gate;
use std::alloc::{Allocator, Global};
use std::fmt;
use std::marker::Model;

/// A lawful circuit: within the limits, each gate reads only input wires and wires that gates before it
/// set, each wire is set at most once, and each output wire is an input wire or set by a gate.
///
/// The first wires are those of input value 0, then of value 1, and so on; the last wires are those of the
/// output values in order.
#[derive(Drop)]
pub struct Circuit<A: Allocator = Global> {
    wires: u32,
    input_wires: u32,
    output_wires: u32,
    and_count: u32,
    input_widths: Vec<u32, A>,
    output_widths: Vec<u32, A>,
    gates: Vec<Gate, A>,
}

impl<A: Allocator> Model for Circuit<A> {
    ghost use Rattle.gc_netlist.specs.Circuit.{Netlist, netlist_of, IsSummary};

    ghost Value = { Netlist };

    ghost view = { λ c.
        netlist_of c.wires c.input_widths.items c.output_widths.items c.gates.items };

    ghost invariant = { λ c. IsSummary
        (netlist_of c.wires c.input_widths.items c.output_widths.items c.gates.items)
        c.input_wires c.output_wires c.and_count };
}

impl<A: Allocator> fmt::Debug for Circuit<A> {
    fn fmt<W: fmt::Write>(&self, f: &mut fmt::Formatter<W>) -> fmt::Result {
        f.debug_struct("Circuit")
            .field("gates", &self.gates())
            .field("wires", &self.wires())
            .field("input_widths", &self.input_widths())
            .field("output_widths", &self.output_widths())
            .finish_non_exhaustive()
    }
}

impl<A: Allocator> Circuit<A> {
    /// The circuit of these parts. The caller ensures that it is lawful, and what the sums are.
    pub(crate) fn new(
        wires: u32,
        inputs: Widths<A>,
        outputs: Widths<A>,
        body: Gates<A>,
    ) -> Circuit<A>
        requires { IsSummary
            (netlist_of wires inputs.widths.items outputs.widths.items body.gates.items)
            inputs.sum outputs.sum body.and_count }
        ensures { result
            ≡ netlist_of wires inputs.widths.items outputs.widths.items body.gates.items }
    {
        Circuit {
            wires,
            input_wires: inputs.sum,
            output_wires: outputs.sum,
            and_count: body.and_count,
            input_widths: inputs.widths,
            output_widths: outputs.widths,
            gates: body.gates,
        }
    }

    /// The law of the type: the circuit is lawful. A call of it does nothing.
    #[inline(always)]
    pub fn law_lawful(&self)
        ensures { IsLawful self.now }
    {
        let _ = &self.wires;
    }

    /// How many gates the circuit has.
    pub fn gates(&self) -> u32
        ensures count { result ≡ length self.now.gates }
        ensures lawful { IsLawful self.now }
    {
        self.gates.len() as u32
    }

    /// How many wires the circuit has.
    pub fn wires(&self) -> u32
        ensures count { result ≡ self.now.wires }
        ensures lawful { IsLawful self.now }
    {
        self.wires
    }

    /// How many of the gates are AND gates.
    pub fn and_count(&self) -> u32
        ensures { result ≡ and_count self.now }
    {
        self.and_count
    }

    /// The number of wires of each input value, in order.
    pub fn input_widths(&self) -> &[u32]
        ensures { result.now ≡ self.now.input_widths }
    {
        &self.input_widths
    }

    /// The number of wires of each output value, in order.
    pub fn output_widths(&self) -> &[u32]
        ensures { result.now ≡ self.now.output_widths }
    {
        &self.output_widths
    }

    /// How many input wires the circuit has: the sum of the input widths.
    pub fn input_wires(&self) -> u32
        ensures { result ≡ input_wires self.now }
    {
        self.input_wires
    }

    /// How many output wires the circuit has: the sum of the output widths.
    pub fn output_wires(&self) -> u32
        ensures { result ≡ output_wires self.now }
    {
        self.output_wires
    }

    /// The gate at place i of the file, counted from 0. The caller ensures that there is one.
    pub fn gate(&self, i: u32) -> Gate
        requires { i < length self.now.gates }
        ensures { slice_get self.now.gates i ≡ Some result }
    {
        self.gates[i as usize]
    }

    /// Whether both circuits have the same wires, widths and gates.
    pub fn equals<B: Allocator>(&self, other: &Circuit<B>) -> bool
        ensures { IsTrue result ↔ (self.now ≡ other.now) }
    {
        let wires = self.wires == other.wires;
        let inputs = same_widths(&self.input_widths, &other.input_widths);
        let outputs = same_widths(&self.output_widths, &other.output_widths);
        wires && inputs && outputs && same_gates(&self.gates, &other.gates)
    }

    /// The circuit of these gates, with the wires and the widths of this one. The caller ensures that it is lawful and
    /// that it has as many AND gates.
    pub fn with_gates<B: Allocator + Copy>(
        &self,
        alloc: B,
        gates: Vec<Gate, B>,
    ) -> Result<Circuit<B>, Memory>
        requires lawful { IsLawful (with_gates self.now gates.items) }
        requires ands { and_count (with_gates self.now gates.items) ≡ and_count self.now }
        ensures { IfOk result (λ c. c ≡ with_gates self.now gates.items) }
    {
        Ok(Circuit {
            wires: self.wires,
            input_wires: self.input_wires,
            output_wires: self.output_wires,
            and_count: self.and_count,
            input_widths: Vec::from_slice(alloc, &self.input_widths)?,
            output_widths: Vec::from_slice(alloc, &self.output_widths)?,
            gates,
        })
    }

    /// An equal circuit in memory of its own.
    pub fn try_clone<B: Allocator + Copy>(&self, alloc: B) -> Result<Circuit<B>, Memory>
        ensures { IfOk result (λ c. c ≡ self.now) }
    {
        Ok(Circuit {
            wires: self.wires,
            input_wires: self.input_wires,
            output_wires: self.output_wires,
            and_count: self.and_count,
            input_widths: Vec::from_slice(alloc, &self.input_widths)?,
            output_widths: Vec::from_slice(alloc, &self.output_widths)?,
            gates: Vec::from_slice(alloc, &self.gates)?,
        })
    }
}

fn same_widths(left: &[u32], right: &[u32]) -> bool
    ensures { IsTrue result ↔ (left.now ≡ right.now) }
{
    left == right
}

fn same_gates(left: &[Gate], right: &[Gate]) -> bool
    ensures { IsTrue result ↔ (left.now ≡ right.now) }
{
    left == right
}
