//! The wires of a circuit that are set.

ghost use Rattle.std.specs.Prelude.{◌≡◌, ◌<◌, ◌∷◌, [], map, IfOk, IfSome, MatchOption};
ghost use Rattle.std.specs.List.{range_with_len};
ghost use Rattle.gc_netlist.specs.Circuit.{input_wires};
ghost use Rattle.gc_netlist.specs.Reading.{is_set};
ghost use Rattle.gc_command.specs.Labels.{set_from};

use gc_circuit::Circuit;
use std::alloc::{AllocError, Allocator, Global};
use std::marker::Model;

/// The wires of a circuit that are set, one after another, from one on and at most as many as asked for.
#[derive(Drop)]
pub(crate) struct SetWires<A: Allocator = Global> {
    is_set: Vec<bool, A>,
    next: u32,
    left: u32,
}

impl<A: Allocator> Model for SetWires<A> {
    ghost use Rattle.std.specs.Prelude.{◌-◌, ◌<◌, ◌^◌, false, length, take, filter, slice_index_or};
    ghost use Rattle.std.specs.List.{range_with_len};
    ghost use Rattle.gc_command.specs.Labels.{WiresLeft};

    ghost Value = { WiresLeft };

    ghost view = { λ w. record {
      wires = length w.is_set.items;
      left = take w.left (filter (λ k. slice_index_or w.is_set.items k false)
          (range_with_len w.next (length w.is_set.items - w.next)));
    } };

    ghost invariant = { λ w. length w.is_set.items < 2 ^ 32 };
}

impl<A: Allocator> SetWires<A> {
    /// The wires that are set from `from` on, at most `count`. It allocates once, a flag for each wire.
    pub(crate) fn new<C: Allocator>(
        alloc: A,
        circuit: &Circuit<C>,
        from: u32,
        count: u32,
    ) -> Result<SetWires<A>, AllocError>
        ensures { IfOk result (λ wires. wires ≡ record {
          wires = circuit.now.wires;
          left = set_from circuit.now from count;
        }) }
    {
        let is_set = flags(alloc, circuit)?;
        circuit.law_lawful();
        Ok(SetWires {
            is_set,
            next: from,
            left: count,
        })
    }

    /// The next one, if one is left.
    pub(crate) fn next(&mut self) -> Option<u32>
        ensures left { MatchOption result ((self.old.left ≡ []) × (self.new.left ≡ []))
            (λ w. self.old.left ≡ w ∷ self.new.left) }
        ensures wire { IfSome result (λ w. w < self.old.wires) }
        ensures wires { self.new.wires ≡ self.old.wires }
    {
        if self.left == 0 {
            return None;
        }
        let wires = self.is_set.len() as u32;
        for wire in self.next..wires {
            if self.is_set[wire as usize] {
                self.next = wire + 1;
                self.left -= 1;
                return Some(wire);
            }
        }
        self.left = 0;
        None
    }
}

/// For each wire whether it is set: it is an input wire, or a gate sets it.
fn flags<A: Allocator, C: Allocator>(
    alloc: A,
    circuit: &Circuit<C>,
) -> Result<Vec<bool, A>, AllocError>
    ensures { IfOk result (λ v. v.items ≡ map (is_set (input_wires circuit.now) circuit.now.gates)
        (range_with_len 0 circuit.now.wires)) }
{
    let mut is_set = Vec::with_capacity(alloc, circuit.wires() as usize)?;
    is_set.resize(circuit.input_wires() as usize, true)?;
    is_set.resize(circuit.wires() as usize, false)?;
    for i in 0..circuit.gates() {
        let wire = circuit.gate(i).set;
        is_set[wire as usize] = true;
    }
    Ok(is_set)
}
