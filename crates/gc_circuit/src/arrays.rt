//! Circuits from arrays of gates.

ghost use Rattle.std.specs.Prelude.{◌≡◌, ◌≢◌, ◌⊎◌, ℕ, ◌≤◌, ◌∷◌, ◌++◌, List, [], length, map, sum, slice_index_or, true, false, IfOk, IfErr, OnOk, MatchResult, Some, None, Ok, Err, decimal};
ghost use Rattle.gc_netlist.specs.Circuit.{Netlist, IsLawful};
ghost use Rattle.gc_netlist.specs.Spelling.{words_of_gate, words_of_widths};
ghost use Rattle.gc_netlist.specs.Canon.{written, canonical_text};
ghost use Rattle.gc_netlist.specs.Reading.{limited_at, widths_at, gate_at, check_gate, gates_at};
ghost use Rattle.gc_circuit.specs.Arrays.{words_of_numbers, tokens_of, text_of, IsFound};
ghost use Rattle.gc_circuit.specs.Gates.{AreMarked};
ghost use Rattle.gc_circuit.specs.Stop.{GateStops, GatesStop, IsRefused};

use crate::circuit::Circuit;
use crate::gates::{Gates, Wires};
use crate::read::{Widths, check_next, check_outputs, sum_of};
use crate::stop::Stop;
use gc_netlist::{Gate, MAX_GATES, MAX_VALUES, MAX_WIRES, Operation, ReadFault};
use std::alloc::{AllocFailed, Allocator};

/// A gate in numbers.
#[repr(C)]
#[derive(Clone, Copy, Debug, PartialEq, Eq)]
pub struct GateNumbers {
    /// The operation: 0 is XOR, 1 AND, 2 INV, 3 EQ, and 4 EQW.
    pub operation: u32,
    /// The wire that the gate reads first; for EQ the constant, 0 or 1.
    pub first: u32,
    /// The wire that XOR and AND read second. INV, EQ and EQW ignore it.
    pub second: u32,
    /// The wire that the gate sets.
    pub set: u32,
}

/// A circuit in arrays.
#[derive(Clone, Copy)]
pub struct Arrays<'a> {
    /// How many wires there are.
    pub wires: u32,
    /// The number of wires of each input value.
    pub input_widths: &'a [u32],
    /// The number of wires of each output value.
    pub output_widths: &'a [u32],
    /// The gates.
    pub gates: &'a [GateNumbers],
}

/// Why arrays are no circuit.
#[derive(Clone, Copy, Debug, PartialEq, Eq)]
pub struct ArraysFault {
    /// The fault.
    pub fault: ReadFault,
    /// The gate, counted from 0, where the fault is found in one.
    pub gate: Option<u32>,
    /// The wire, where the fault is about one. Of the output wires that aren't set it is the lowest.
    pub wire: Option<u32>,
}

impl<T: Drop> From<AllocFailed<T>> for ArraysFault {
    ghost use Rattle.gc_circuit.specs.Stop.{IsRefused};

    ghost from_gives = { λ _ e. IsRefused e.fault e.gate e.wire };

    fn from(_e: AllocFailed<T>) -> ArraysFault {
        ArraysFault {
            fault: ReadFault::Memory,
            gate: None,
            wire: None,
        }
    }
}

/// A number of gates, wires or values against its limit.
#[tactic(auto, using(std::proofs::lemmas::Bool::Decides::nat_tests, crate::proofs::ArrayLemmas::limited_read))]
fn check_limit(number: usize, limit: u32) -> Result<(), ReadFault>
    ensures within { OnOk result (number ≤ limit) }
    ensures read { (rest : List (List ℕ)) → MatchResult result
        (λ _. limited_at limit (decimal number ∷ rest) ≡ Ok (number, rest))
        (λ e. limited_at limit (decimal number ∷ rest) ≡ Err e) }
{
    if number <= limit as usize {
        Ok(())
    } else if number <= u32::MAX as usize {
        Err(ReadFault::TooLarge)
    } else {
        Err(ReadFault::BadNumber)
    }
}

/// The widths of the values of one side: how many, and then their sum against the wires.
#[tactic(auto, using(std::proofs::lemmas::Bool::Decides::nat_tests, crate::proofs::ArrayLemmas::widths_read))]
fn copy_widths<A: Allocator>(alloc: A, widths: &[u32], wires: u32) -> Result<Widths<A>, ReadFault>
    ensures same { IfOk result (λ w. w.widths.items ≡ widths.now) }
    ensures sums { IfOk result (λ w. w.sum ≡ sum widths.now) }
    ensures fits { IfOk result (λ w. w.sum ≤ wires) }
    ensures read { IfOk result (λ _. (rest : List (List ℕ)) →
        widths_at wires (map written (words_of_widths widths.now) ++ rest)
        ≡ Ok (widths.now, rest)) }
    ensures fault { IfErr result (λ e. (e ≡ ReadFault.Memory) ⊎ ((rest : List (List ℕ)) →
        widths_at wires (map written (words_of_widths widths.now) ++ rest) ≡ Err e)) }
{
    check_limit(widths.len(), MAX_VALUES)?;
    let sum = sum_of(widths);
    if sum > u64::from(wires) {
        return Err(ReadFault::WidthsExceedWires);
    }
    Ok(Widths {
        widths: Vec::from_slice(alloc, widths)?,
        sum: sum as u32,
    })
}

/// AND or XOR. It is chosen without a branch, which no processor would predict.
fn operation_of_two(is_and: bool, first: u32, second: u32) -> Operation
    ensures and { is_and ≡ true → result ≡ Operation.And first second }
    ensures xor { is_and ≡ false → result ≡ Operation.Xor first second }
{
    if is_and {
        Operation::And(first, second)
    } else {
        Operation::Xor(first, second)
    }
}

/// The gate of these numbers.
#[tactic(auto, using(crate::proofs::ArrayLemmas::unknown_read, crate::proofs::ArrayLemmas::constant_read))]
#[inline(always)]
fn gate_of(numbers: GateNumbers) -> Result<Gate, ReadFault>
    ensures words { IfOk result (λ g. words_of_gate g ≡ words_of_numbers numbers) }
    ensures fault { IfErr result (λ e. (rest : List (List ℕ)) →
        gate_at (map written (words_of_numbers numbers) ++ rest) ≡ Err e) }
{
    let GateNumbers {
        operation,
        first,
        second,
        set,
    } = numbers;
    let operation = if operation < 2 {
        operation_of_two(operation == 1, first, second)
    } else {
        match (operation, first) {
            (2, _) => Operation::Inv(first),
            (3, 0) => Operation::Eq(false),
            (3, 1) => Operation::Eq(true),
            (3, _) => return Err(ReadFault::BadConstant),
            (4, _) => Operation::Eqw(first),
            _ => return Err(ReadFault::UnknownOperation),
        }
    };
    Ok(Gate { operation, set })
}

/// The gate of these numbers, checked against those before it, of which there are `number`.
#[tactic(auto, using(crate::proofs::ArrayLemmas::numbers_read))]
#[inline(always)]
fn next_gate(numbers: GateNumbers, is_set: &[bool], number: u32) -> Result<Gate, Stop>
    ensures words { IfOk result (λ g. words_of_gate g ≡ words_of_numbers numbers) }
    ensures read { IfOk result (λ g. (rest : List (List ℕ)) →
        gate_at (map written (words_of_numbers numbers) ++ rest) ≡ Ok (g, rest)) }
    ensures checked { IfOk result (λ g.
        check_gate (length is_set.now) (λ w. slice_index_or is_set.now w false) g ≡ Ok tt) }
    ensures stops { IfErr result (λ s. (rest : List (List ℕ)) → (left : List (List ℕ))
        × GateStops (length is_set.now) (λ w. slice_index_or is_set.now w false)
        (map written (words_of_numbers numbers) ++ rest) left s.fault s.back s.wire) }
    ensures in_gate { IfErr result (λ s. s.gate ≡ Some number) }
{
    let gate = match gate_of(numbers) {
        Ok(gate) => gate,
        Err(fault) => return Err(Stop::in_gate(fault, number)),
    };
    check_next(gate, is_set, number)?;
    Ok(gate)
}

/// The gates of these numbers, each checked against those before it.
#[tactic(auto, unfolding(gc_netlist::specs::Reading::gates_at))]
fn check_gates<A: Allocator + Copy>(
    alloc: A,
    wires: Wires,
    numbers: &[GateNumbers],
) -> Result<Gates<A>, Stop>
    requires fits { wires.inputs ≤ wires.count }
    requires few { length numbers.now ≤ MAX_GATES }
    ensures read { IfOk result (λ g. gates_at wires.count wires.inputs (length numbers.now) []
        (tokens_of numbers.now) ≡ Ok (g.gates.items, [])) }
    ensures words { IfOk result (λ g.
        map words_of_gate g.gates.items ≡ map words_of_numbers numbers.now) }
    ensures marked { IfOk result (λ g. AreMarked wires.count wires.inputs
        g.gates.items g.is_set.items g.and_count) }
    ensures stops { IfErr result (λ s. IsRefused s.fault s.gate s.wire
        ⊎ ((left : List (List ℕ)) × GatesStop wires.count wires.inputs (length numbers.now)
        (tokens_of numbers.now) left s.fault s.back s.gate s.wire)) }
{
    let mut body = Gates::new(alloc, wires, numbers.len())?;
    for (i, next) in numbers.iter().enumerate() {
        let gate = next_gate(*next, &body.is_set, i as u32)?;
        body.push(gate)?;
    }
    Ok(body)
}

/// Takes the counts, the widths and the gates, in the order of a text.
fn take_in_order<A: Allocator + Copy>(alloc: A, arrays: Arrays<'_>) -> Result<Circuit<A>, Stop>
    ensures lawful { IfOk result IsLawful }
    ensures canonical { IfOk result (λ c. canonical_text c ≡ text_of arrays.entry) }
    ensures stops { IfErr result (λ s. IsRefused s.fault s.gate s.wire
        ⊎ IsFound (text_of arrays.entry) s.fault s.gate s.wire) }
{
    check_limit(arrays.gates.len(), MAX_GATES)?;
    check_limit(arrays.wires as usize, MAX_WIRES)?;
    let inputs = copy_widths(alloc, arrays.input_widths, arrays.wires)?;
    let outputs = copy_widths(alloc, arrays.output_widths, arrays.wires)?;
    let sizes = Wires {
        count: arrays.wires,
        inputs: inputs.sum,
    };
    let body = check_gates(alloc, sizes, arrays.gates)?;
    check_outputs(&body.is_set, outputs.sum)?;
    Ok(Circuit::new(arrays.wires, inputs, outputs, body))
}

impl<A: Allocator + Copy> Circuit<A> {
    /// Makes a circuit of arrays. Returns the circuit exactly where the text that the arrays stand for is its canonical
    /// text, and otherwise the first fault of that text, as `read` does, with its gate and its wire. `Memory` replaces
    /// the circuit, or a later fault, only where an allocation was refused.
    ///
    /// In that text an operation above 4 is an unknown name, and a count above 4,294,967,295 is no number.
    pub fn from_arrays(alloc: A, arrays: Arrays<'_>) -> Result<Circuit<A>, ArraysFault>
        ensures lawful { IfOk result IsLawful }
        ensures canonical { IfOk result (λ c. canonical_text c ≡ text_of arrays.entry) }
        ensures exactly { (c : Netlist) → IsLawful c → canonical_text c ≡ text_of arrays.entry
            → MatchResult result (λ d. d ≡ c) (λ e. e.fault ≡ ReadFault.Memory) }
        ensures first_fault { IfErr result (λ e. e.fault ≢ ReadFault.Memory →
            IsFound (text_of arrays.entry) e.fault e.gate e.wire) }
        ensures memory { IfErr result (λ e. e.fault ≡ ReadFault.Memory →
            (e.gate ≡ None) × (e.wire ≡ None)) }
    {
        match take_in_order(alloc, arrays) {
            Ok(circuit) => Ok(circuit),
            Err(stop) => Err(ArraysFault {
                fault: stop.fault,
                gate: stop.gate,
                wire: stop.wire,
            }),
        }
    }
}
