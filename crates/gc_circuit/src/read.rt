ghost use Rattle.std.specs.Prelude.{◌≡◌, ◌≢◌, ℕ, ◌<◌, ◌≤◌, ◌-◌, ◌^◌, [], length, sum, drop, slice_index_or, false, true, if◌then◌else◌, IfOk, IfErr, OnOk, IsFalse, MatchResult, Some, None, Ok, Err, vec_len};
ghost use Rattle.std.specs.List.{list_all};
ghost use Rattle.gc_netlist.specs.Circuit.{Netlist, IsLawful};
ghost use Rattle.gc_netlist.specs.Text.{tokens};
ghost use Rattle.gc_netlist.specs.Spelling.{SpellWords, Spells, words_of_circuit};
ghost use Rattle.gc_netlist.specs.FirstFault.{FirstFault};
ghost use Rattle.gc_netlist.specs.Reading.{numbers_at, widths_at, gate_at, check_gate, gates_at, circuit_of};
ghost use Rattle.gc_netlist.specs.Met.{numbers_left, widths_left, wire_at_fault, IsMet};
ghost use Rattle.gc_circuit.specs.Gates.{AreMarked};
ghost use Rattle.gc_circuit.specs.Stop.{GateStops, GatesStop, IsUnset};

use crate::checks::{check_gate, wire_at_fault};
use crate::circuit::Circuit;
use crate::gates::{Gates, Wires};
use crate::stop::Stop;
use gc_netlist::{Gate, MAX_GATES, MAX_VALUES, MAX_WIRES, ReadFault};
use gc_tokens::{Tokens, read_gate};
use std::alloc::Allocator;

/// The bytes that a gate takes at the least: those of `1 1 0 1 EQ` and a blank.
const SHORTEST_GATE: usize = 11;

/// The widths of the values of one side, and their sum.
#[derive(Drop)]
pub(crate) struct Widths<A: Allocator> {
    pub(crate) widths: Vec<u32, A>,
    pub(crate) sum: u32,
}

/// The next numbers, a given number of them.
#[tactic(auto, using(crate::proofs::NumbersLemmas::numbers_more, crate::proofs::NumbersLemmas::left_more, crate::proofs::NumbersLemmas::numbers_done))]
fn read_numbers<A: Allocator>(
    alloc: A,
    tokens: &mut Tokens<'_>,
    count: u32,
) -> Result<Vec<u32, A>, ReadFault>
    ensures all { MatchResult result
        (λ v. numbers_at count [] tokens.old.left ≡ Ok (v.items, tokens.new.left))
        (λ e. e ≢ ReadFault.Memory → numbers_at count [] tokens.old.left ≡ Err e) }
    ensures len { IfOk result (λ v. vec_len v ≡ count) }
    ensures left { IfErr result (λ e.
        e ≢ ReadFault.Memory → tokens.new.left ≡ numbers_left count tokens.old.left) }
    ensures kept { tokens.new.text ≡ tokens.old.text }
{
    let mut numbers = Vec::with_capacity(alloc, count as usize)?;
    for _i in 0..count {
        let number = tokens.number()?;
        numbers.push(number)?;
    }
    Ok(numbers)
}

/// The sum of the widths, of which there are not too many.
pub(crate) fn sum_of(widths: &[u32]) -> u64
    requires { length widths.now ≤ MAX_VALUES }
    ensures { result ≡ sum widths.now }
{
    widths.iter().map(|width| u64::from(*width)).sum()
}

/// The widths of the values of one side: how many, each, and then their sum against the wires.
#[tactic(auto, unfolding(gc_netlist::specs::Reading::widths_at, gc_netlist::specs::Met::widths_left))]
fn read_widths<A: Allocator>(
    alloc: A,
    tokens: &mut Tokens<'_>,
    wires: u32,
) -> Result<Widths<A>, ReadFault>
    ensures read { MatchResult result
        (λ w. widths_at wires tokens.old.left ≡ Ok (w.widths.items, tokens.new.left))
        (λ e. e ≢ ReadFault.Memory → widths_at wires tokens.old.left ≡ Err e) }
    ensures left { IfErr result (λ e.
        e ≢ ReadFault.Memory → tokens.new.left ≡ widths_left tokens.old.left) }
    ensures kept { tokens.new.text ≡ tokens.old.text }
    ensures sums { IfOk result (λ w. w.sum ≡ sum w.widths.items) }
    ensures fits { IfOk result (λ w. w.sum ≤ wires) }
{
    let count = tokens.number_up_to(MAX_VALUES)?;
    let widths = read_numbers(alloc, tokens, count)?;
    let sum = sum_of(&widths);
    if sum <= u64::from(wires) {
        Ok(Widths {
            widths,
            sum: sum as u32,
        })
    } else {
        Err(ReadFault::WidthsExceedWires)
    }
}

/// Checks a gate against those before it, of which there are `number`.
#[inline(always)]
pub(crate) fn check_next(gate: Gate, is_set: &[bool], number: u32) -> Result<(), Stop>
    ensures passes { OnOk result
        (check_gate (length is_set.now) (λ w. slice_index_or is_set.now w false) gate ≡ Ok tt) }
    ensures refused { IfErr result (λ s.
        check_gate (length is_set.now) (λ w. slice_index_or is_set.now w false) gate
        ≡ Err s.fault) }
    ensures at_wire { IfErr result (λ s. let at = wire_at_fault (length is_set.now)
        (λ w. slice_index_or is_set.now w false) gate.set gate.operation in
        (s.back ≡ at.1) × (s.wire ≡ Some at.0)) }
    ensures in_gate { IfErr result (λ s. s.gate ≡ Some number) }
{
    match check_gate(is_set, gate) {
        Ok(()) => Ok(()),
        Err(fault) => {
            let at = wire_at_fault(is_set, gate);
            Err(Stop {
                fault,
                back: at.back,
                gate: Some(number),
                wire: Some(at.wire),
            })
        }
    }
}

/// The next gate, checked against those before it, of which there are `number`.
#[inline(always)]
fn next_gate(tokens: &mut Tokens<'_>, is_set: &[bool], number: u32) -> Result<Gate, Stop>
    ensures read { IfOk result (λ g. gate_at tokens.old.left ≡ Ok (g, tokens.new.left)) }
    ensures checked { IfOk result (λ g.
        check_gate (length is_set.now) (λ w. slice_index_or is_set.now w false) g ≡ Ok tt) }
    ensures stops { IfErr result (λ s. GateStops (length is_set.now)
        (λ w. slice_index_or is_set.now w false) tokens.old.left tokens.new.left
        s.fault s.back s.wire) }
    ensures in_gate { IfErr result (λ s. s.gate ≡ Some number) }
    ensures kept { tokens.new.text ≡ tokens.old.text }
{
    let gate = match read_gate(tokens) {
        Ok(gate) => gate,
        Err(fault) => return Err(Stop::in_gate(fault, number)),
    };
    check_next(gate, is_set, number)?;
    Ok(gate)
}

/// The next gates, a given number of them, each checked against those before it. Room for some is taken at once.
#[tactic(auto, unfolding(gc_netlist::specs::Reading::gates_at))]
fn read_gates<A: Allocator + Copy>(
    alloc: A,
    tokens: &mut Tokens<'_>,
    wires: Wires,
    count: u32,
) -> Result<Gates<A>, Stop>
    requires { wires.inputs ≤ wires.count }
    ensures read { MatchResult result
        (λ g. gates_at wires.count wires.inputs count [] tokens.old.left
        ≡ Ok (g.gates.items, tokens.new.left))
        (λ s. s.fault ≢ ReadFault.Memory
        → gates_at wires.count wires.inputs count [] tokens.old.left ≡ Err s.fault) }
    ensures marked { IfOk result (λ g. AreMarked wires.count wires.inputs
        g.gates.items g.is_set.items g.and_count) }
    ensures stops { IfErr result (λ s. s.fault ≢ ReadFault.Memory
        → GatesStop wires.count wires.inputs count
        tokens.old.left tokens.new.left s.fault s.back s.gate s.wire) }
    ensures kept { tokens.new.text ≡ tokens.old.text }
{
    let room = (tokens.text_len() / SHORTEST_GATE + 1).min(count as usize);
    let mut body = Gates::new(alloc, wires, room)?;
    for i in 0..count {
        let gate = next_gate(tokens, &body.is_set, i)?;
        body.push(gate)?;
    }
    Ok(body)
}

/// Whether each of these wires is set.
fn all_set(is_set: &[bool]) -> bool
    ensures { result ≡ list_all (λ b. b) is_set.now }
{
    is_set.iter().all(|set| *set)
}

/// The first of these wires that is not set. The caller ensures that there is one.
#[cold]
fn first_unset(is_set: &[bool]) -> usize
    requires { list_all (λ b. b) is_set.now ≡ false }
    ensures within { result < length is_set.now }
    ensures free { slice_index_or is_set.now result false ≡ false }
    ensures lower { (v : ℕ) → v < result → slice_index_or is_set.now v false ≡ true }
{
    for (i, set) in is_set.iter().enumerate() {
        if !*set {
            return i;
        }
    }
    unreachable!()
}

/// Each output wire is set. They are the last wires.
pub(crate) fn check_outputs(is_set: &[bool], outputs: u32) -> Result<(), Stop>
    requires fits { outputs ≤ length is_set.now }
    requires small { length is_set.now < 2 ^ 32 }
    ensures read { MatchResult result
        (λ _. list_all (λ b. b) (drop (length is_set.now - outputs) is_set.now) ≡ true)
        (λ _. list_all (λ b. b) (drop (length is_set.now - outputs) is_set.now) ≡ false) }
    ensures unset { IfErr result (λ s. IsUnset is_set.now outputs s.fault s.back s.gate s.wire) }
{
    let first = is_set.len() - outputs as usize;
    let (_, last) = is_set.split_at(first);
    if all_set(last) {
        return Ok(());
    }
    let wire = first + first_unset(last);
    Err(Stop {
        fault: ReadFault::OutputUnset,
        back: 0,
        gate: None,
        wire: Some(wire as u32),
    })
}

impl<A: Allocator + Copy> Circuit<A> {
    /// Reads a circuit in Bristol Fashion. Returns the circuit exactly where the text spells a lawful one, and
    /// otherwise the first fault of the text, from left to right; `Memory` replaces the circuit, or a later fault, only
    /// where an allocation was refused.
    pub fn read(alloc: A, text: &[u8]) -> Result<Circuit<A>, ReadFault>
        ensures lawful { IfOk result IsLawful }
        ensures spelled { IfOk result (Spells text.now) }
        ensures exactly { (c : Netlist) → IsLawful c → Spells text.now c
            → MatchResult result (λ d. d ≡ c) (λ e. e ≡ ReadFault.Memory) }
        ensures first_fault { IfErr result (λ e.
            e ≢ ReadFault.Memory → FirstFault (tokens text.now) e) }

        // What reading from left to right gives, which `law_reading` ties to the clauses above.
        ensures reading { MatchResult result (λ c. circuit_of (tokens text.now) ≡ Ok c)
            (λ e. e ≢ ReadFault.Memory → circuit_of (tokens text.now) ≡ Err e) }
    {
        let mut tokens = Tokens::new(text);
        match Circuit::read_in_order(alloc, &mut tokens) {
            Ok(circuit) => Ok(circuit),
            Err(stop) => Err(stop.fault),
        }
    }

    /// Reads the header, the gates and the end, in the order of the text. The cursor stays where reading stops.
    #[tactic(auto, unfolding(gc_netlist::specs::Reading::circuit_of))]
    pub(crate) fn read_in_order(alloc: A, tokens: &mut Tokens<'_>) -> Result<Circuit<A>, Stop>
        ensures reading { MatchResult result (λ c. circuit_of tokens.old.left ≡ Ok c)
            (λ s. s.fault ≢ ReadFault.Memory → circuit_of tokens.old.left ≡ Err s.fault) }
        ensures lawful { IfOk result IsLawful }
        ensures spelled { IfOk result (λ c. SpellWords tokens.old.left (words_of_circuit c) []) }
        ensures met { IfErr result (λ s. s.fault ≢ ReadFault.Memory
            → IsMet tokens.old.left s.fault tokens.new.left s.back s.gate s.wire) }
        ensures kept { tokens.new.text ≡ tokens.old.text }
    {
        let count = tokens.number_up_to(MAX_GATES)?;
        let wires = tokens.number_up_to(MAX_WIRES)?;
        let inputs = read_widths(alloc, tokens, wires)?;
        let outputs = read_widths(alloc, tokens, wires)?;
        let sizes = Wires {
            count: wires,
            inputs: inputs.sum,
        };
        let body = read_gates(alloc, tokens, sizes, count)?;
        check_outputs(&body.is_set, outputs.sum)?;
        tokens.end()?;
        Ok(Circuit::new(wires, inputs, outputs, body))
    }
}
