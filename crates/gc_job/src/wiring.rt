//! Which gate sets each wire of a circuit, and the AND number of each gate.

ghost use Rattle.std.specs.Prelude.{◌≡◌, ℕ, ◌<◌, IfOk, IfSome, IfNone, length};
ghost use Rattle.gc_netlist.specs.Circuit.{IsSetBy, IsLawful, and_number};
ghost use Rattle.gc_job.specs.Wiring.{AreSetters};

use gc_circuit::Circuit;
use gc_half::and_numbers;
use std::alloc::{AllocError, Allocator, Global};
use std::marker::Model;

/// Tables of a circuit, made once for a board: which gate sets each wire, and the AND number of each gate. Contracts
/// see the circuit.
#[derive(Drop)]
pub struct Wiring<'c, A: Allocator = Global, C: Allocator = Global> {
    circuit: &'c Circuit<C>,
    // By wire after the input wires: the gate that sets it, plus 1, or 0.
    setters: Vec<u32, A>,
    // By gate.
    and_numbers: Vec<u32, A>,
}

impl<'c, A: Allocator, C: Allocator> Model for Wiring<'c, A, C> {
    ghost use Rattle.gc_netlist.specs.Circuit.{Netlist};

    ghost Value = { Netlist };

    ghost use Rattle.gc_job.specs.Wiring.{IsWired};

    ghost view = { λ w. w.circuit.now };

    ghost invariant = { λ w. IsWired w.circuit.now w.setters.items w.and_numbers.items };
}

impl<'c, A: Allocator + Copy, C: Allocator> Wiring<'c, A, C> {
    /// The tables of a circuit. It allocates twice.
    pub fn of(alloc: A, circuit: &'c Circuit<C>) -> Result<Wiring<'c, A, C>, AllocError>
        ensures { IfOk result (λ wiring. wiring ≡ circuit.now) }
    {
        circuit.law_lawful();
        Ok(Wiring {
            circuit,
            setters: setters(alloc, circuit)?,
            and_numbers: and_numbers(alloc, circuit)?,
        })
    }
}

impl<'c, A: Allocator, C: Allocator> Wiring<'c, A, C> {
    /// The gate that sets a wire, if one does. The caller ensures that there is such a wire.
    #[inline]
    pub fn setter(&self, wire: u32) -> Option<u32>
        requires { wire < self.now.wires }
        ensures some { IfSome result (λ g. IsSetBy self.now wire g) }
        ensures none { IfNone result ((g : ℕ) → IsSetBy self.now wire g → ⊥) }
    {
        let inputs = self.circuit.input_wires();
        if wire < inputs {
            return None;
        }
        let after = self.setters[(wire - inputs) as usize];
        if after == 0 { None } else { Some(after - 1) }
    }

    /// How many AND gates come before a gate in the file. The caller ensures that there is such a gate.
    #[inline]
    pub fn and_number(&self, gate: u32) -> u32
        requires { gate < length self.now.gates }
        ensures { result ≡ and_number self.now gate }
    {
        self.and_numbers[gate as usize]
    }
}

/// By wire after the input wires, the gate that sets it, plus 1, or 0.
fn setters<A: Allocator + Copy, C: Allocator>(
    alloc: A,
    circuit: &Circuit<C>,
) -> Result<Vec<u32, A>, AllocError>
    ensures { IfOk result (λ v. AreSetters circuit.now (length circuit.now.gates) v.items) }
{
    let inputs = circuit.input_wires();
    let mut setters = Vec::from_elem(alloc, 0u32, (circuit.wires() - inputs) as usize)?;
    for i in 0..circuit.gates() {
        setters[(circuit.gate(i).set - inputs) as usize] = i + 1;
    }
    Ok(setters)
}
