//! The gates of a circuit, one after another.

ghost use Rattle.std.specs.Prelude.{◌≡◌, ℕ, ◌<◌, ◌≤◌, [], ◌∷◌, ◌++◌, length, map, slice_index_or, false, IfOk, IfErr, OnOk, MatchResult, Ok};
ghost use Rattle.std.specs.List.{range_with_len};
ghost use Rattle.gc_netlist.specs.Reading.{check_gate, is_set};
ghost use Rattle.gc_circuit.specs.Gates.{AreMarked};
ghost use Rattle.gc_circuit.specs.Stop.{IsRefused};

use crate::stop::Stop;
use gc_netlist::{Gate, ReadFault};
use std::alloc::Allocator;

/// How many wires there are, and how many of them are input wires.
#[derive(Clone, Copy)]
pub(crate) struct Wires {
    pub(crate) count: u32,
    pub(crate) inputs: u32,
}

/// The gates so far, how many of them are AND gates, and a table of the wires that are set.
#[derive(Drop)]
pub(crate) struct Gates<A: Allocator> {
    pub(crate) gates: Vec<Gate, A>,
    pub(crate) and_count: u32,
    pub(crate) is_set: Vec<bool, A>,
}

/// The table of the wires that are set before any gate: the input wires.
#[tactic(auto, using(crate::proofs::CheckLemmas::start_table))]
fn inputs_set<A: Allocator>(alloc: A, wires: Wires) -> Result<Vec<bool, A>, ReadFault>
    requires { wires.inputs ≤ wires.count }
    ensures { MatchResult result
        (λ v. v.items ≡ map (is_set wires.inputs []) (range_with_len 0 wires.count))
        (λ e. e ≡ ReadFault.Memory) }
{
    let mut is_set = Vec::with_capacity(alloc, wires.count as usize)?;
    is_set.resize(wires.inputs as usize, true)?;
    is_set.resize(wires.count as usize, false)?;
    Ok(is_set)
}

impl<A: Allocator + Copy> Gates<A> {
    /// No gate yet, and room for some.
    pub(crate) fn new(alloc: A, wires: Wires, room: usize) -> Result<Gates<A>, ReadFault>
        requires { wires.inputs ≤ wires.count }
        ensures none { IfOk result (λ g. g.gates.items ≡ []) }
        ensures marked { IfOk result (λ g. AreMarked wires.count wires.inputs
            g.gates.items g.is_set.items g.and_count) }
        ensures memory { IfErr result (λ e. e ≡ ReadFault.Memory) }
    {
        let is_set = inputs_set(alloc, wires)?;
        Ok(Gates {
            gates: Vec::with_capacity(alloc, room)?,
            and_count: 0,
            is_set,
        })
    }

    /// Adds a gate, which passes the check against those before it.
    #[tactic(auto, using(crate::proofs::CheckLemmas::check_in_range))]
    #[inline(always)]
    pub(crate) fn push(&mut self, gate: Gate) -> Result<(), Stop>
        requires passes { check_gate (length self.old.is_set.items)
            (λ w. slice_index_or self.old.is_set.items w false) gate ≡ Ok tt }
        requires few { self.old.and_count < u32.MAX }
        ensures more { OnOk result
            (self.new.gates.items ≡ self.old.gates.items ++ gate ∷ []) }
        ensures marked { OnOk result ((wires inputs : ℕ) → AreMarked wires inputs
            self.old.gates.items self.old.is_set.items self.old.and_count → AreMarked wires inputs
            self.new.gates.items self.new.is_set.items self.new.and_count) }
        ensures memory { IfErr result (λ s. IsRefused s.fault s.gate s.wire) }
    {
        self.is_set[gate.set as usize] = true;
        self.and_count += u32::from(gate.operation.is_and());
        self.gates.push(gate)?;
        Ok(())
    }
}
