//! Two garblings of one circuit, side by side: the k-th AND gates of both are garbled at once, so no gate waits.

ghost use Rattle.std.specs.Prelude.{◌≡◌, ◌<◌, ◌≤◌, ◌^◌, ◌-◌, ◌++◌, ℕ, [], IfOk, OnOk, length, map, slice_index, take, replicate};
ghost use Rattle.std.specs.List.{range_with_len};
ghost use Rattle.gc_netlist.specs.Circuit.{EachRead, input_wires, output_wires};
ghost use Rattle.gc_netlist.specs.Solution.{put};
ghost use Rattle.gc_label.specs.Seed.{offset_of, input_label_of};
ghost use Rattle.gc_half.specs.Hash.{hash, numbered_from};
ghost use Rattle.gc_half.specs.HalfGate.{and_garbled};
ghost use Rattle.gc_half.specs.OneGate.{first_read, second_read, gate_zero, gate_rows};
ghost use Rattle.gc_half.specs.Garbling.{IsGarbled, IsGarbledFrom, zero_of};
ghost use Rattle.gc_half.specs.Canonical.{with_row_pair};
ghost use Rattle.gc_half.specs.SideBySide.{IsOneGateMore};

use crate::first::FirstAnd;
use crate::garbling::{GarbledAnd, Garbling, RowPair};
use crate::half_gate::{AndGate, garble_two_ands_from};
use crate::labels::{labels_of_inputs, lengthen};
use crate::one_gate::labels_read;
use gc_circuit::{Circuit, Gate, Memory, Operation};
use gc_label::{Label, Offset, Seed, offset};
use std::alloc::{Allocator, Global};

/// The garblings of one circuit under two seeds, made side by side on one thread. Each is what
/// [`garble_one_thread`](crate::garble_one_thread) returns.
pub fn garble_two<A: Allocator + Copy, C: Allocator>(
    alloc: A,
    circuit: &Circuit<C>,
    seed: &Seed,
    other: &Seed,
) -> Result<(Garbling<A>, Garbling<A>), Memory>
    ensures one { IfOk result (λ made. IsGarbled circuit.now seed.now made.0) }
    ensures other { IfOk result (λ made. IsGarbled circuit.now other.now made.1) }
{
    let one = PartialGarbling::new(alloc, circuit, seed)?;
    let other = PartialGarbling::new(alloc, circuit, other)?;
    garble_both(circuit, one, other)
}

/// Both garblings, gate after gate. The caller ensures that no row pair is made yet, and that there are as many labels
/// as input wires.
fn garble_both<A: Allocator, C: Allocator>(
    circuit: &Circuit<C>,
    mut one: PartialGarbling<A>,
    mut other: PartialGarbling<A>,
) -> Result<(Garbling<A>, Garbling<A>), Memory>
    requires one { length one.labels.items ≡ input_wires circuit.now }
    requires other { length other.labels.items ≡ input_wires circuit.now }
    requires none { one.rows.items ≡ [] }
    requires no_other { other.rows.items ≡ [] }
    ensures one { IfOk result (λ made.
        IsGarbledFrom one.offset (slice_index one.labels.items) 0 circuit.now made.0) }
    ensures other { IfOk result (λ made.
        IsGarbledFrom other.offset (slice_index other.labels.items) 0 circuit.now made.1) }
{
    circuit.law_lawful();
    for i in 0..circuit.gates() {
        step(&mut one, &mut other, circuit.wires(), circuit.gate(i))?;
    }
    Ok((one.finish(circuit)?, other.finish(circuit)?))
}

/// Garbles one more gate in both. The caller ensures that there are the wires, and that both have as many row pairs.
#[inline(always)]
fn step<A: Allocator>(
    one: &mut PartialGarbling<A>,
    other: &mut PartialGarbling<A>,
    wires: u32,
    gate: Gate,
) -> Result<(), Memory>
    requires read { EachRead (λ w. w < length one.old.labels.items) gate.operation }
    requires other_read { EachRead (λ w. w < length other.old.labels.items) gate.operation }
    requires place { gate.set < wires }
    requires few { length one.old.labels.items ≤ wires }
    requires other_few { length other.old.labels.items ≤ wires }
    requires number { length one.old.rows.items < 2 ^ 32 }
    requires same { length other.old.rows.items ≡ length one.old.rows.items }
    ensures offset { OnOk result (one.new.offset ≡ one.old.offset) }
    ensures other_offset { OnOk result (other.new.offset ≡ other.old.offset) }
    ensures one { OnOk result (IsOneGateMore (numbered_from 0 hash) one.old.offset wires gate
        one.old.labels.items one.old.rows.items one.new.labels.items one.new.rows.items) }
    ensures other { OnOk result (IsOneGateMore (numbered_from 0 hash) other.old.offset
        wires gate other.old.labels.items other.old.rows.items
        other.new.labels.items other.new.rows.items) }
{
    let k = one.rows.len() as u32;
    let (a, b) = one.read(gate.operation);
    let (c, d) = other.read(gate.operation);
    let (made, other_made) = garble_gate_of_both(
        gate.operation,
        AndGate {
            k,
            offset: one.offset,
            a,
            b,
        },
        AndGate {
            k,
            offset: other.offset,
            a: c,
            b: d,
        },
    );
    one.put(wires, gate.set, made)?;
    other.put(wires, gate.set, other_made)
}

/// Garbles the AND gates of both. It is not inlined: its many variables would push those of the loop out of the
/// registers.
#[inline(never)]
fn garble_ands(one: AndGate, other: AndGate) -> (GarbledAnd, GarbledAnd)
    ensures one { result.0
        ≡ and_garbled (numbered_from 0 hash) one.k one.offset one.a one.b }
    ensures other { result.1
        ≡ and_garbled (numbered_from 0 hash) other.k other.offset other.a other.b }
{
    garble_two_ands_from(FirstAnd::ZERO, one, other)
}

/// Garbles one gate of two garblings, as [`crate::garble_gate`] does.
#[inline(always)]
fn garble_gate_of_both(
    operation: Operation,
    one: AndGate,
    other: AndGate,
) -> ((Label, Option<RowPair>), (Label, Option<RowPair>))
    ensures label { result.0.0
        ≡ gate_zero (numbered_from 0 hash) one.offset one.k operation one.a one.b }
    ensures rows { result.0.1
        ≡ gate_rows (numbered_from 0 hash) one.offset one.k operation one.a one.b }
    ensures other_label { result.1.0
        ≡ gate_zero (numbered_from 0 hash) other.offset other.k operation other.a other.b }
    ensures other_rows { result.1.1
        ≡ gate_rows (numbered_from 0 hash) other.offset other.k operation other.a other.b }
{
    // Sums, as in `garble_gate`.
    let ((a, b), (c, d)) = match operation {
        Operation::Xor(_, _) => ((one.a, one.b), (other.a, other.b)),
        Operation::And(_, _) => {
            let (made, other_made) = garble_ands(one, other);
            return (
                (made.zero_label, Some(made.rows)),
                (other_made.zero_label, Some(other_made.rows)),
            );
        }
        Operation::Inv(_) => ((one.a, one.offset.label()), (other.a, other.offset.label())),
        Operation::Eq(constant) => (
            (Label::ZERO, one.offset.label().times(constant)),
            (Label::ZERO, other.offset.label().times(constant)),
        ),
        Operation::Eqw(_) => ((one.a, Label::ZERO), (other.a, Label::ZERO)),
    };
    ((a.xor(b), None), (c.xor(d), None))
}

/// A garbling so far: its offset, the zero label of each wire and the row pair of each AND gate. No gate waits.
#[derive(Drop)]
struct PartialGarbling<A: Allocator = Global> {
    offset: Offset,
    labels: Vec<Label, A>,
    rows: Vec<RowPair, A>,
}

impl<A: Allocator> PartialGarbling<A> {
    /// No row pair yet, and the zero labels of the input wires under a seed.
    fn new<C: Allocator>(
        alloc: A,
        circuit: &Circuit<C>,
        seed: &Seed,
    ) -> Result<PartialGarbling<A>, Memory>
    where
        A: Copy,
        ensures offset { IfOk result (λ g. g.offset ≡ offset_of seed.now) }
        ensures labels { IfOk result (λ g. g.labels.items
            ≡ map (input_label_of seed.now) (range_with_len 0 (input_wires circuit.now))) }
        ensures rows { IfOk result (λ g. g.rows.items ≡ []) }
    {
        Ok(PartialGarbling {
            offset: offset(seed),
            labels: labels_of_inputs(alloc, circuit, seed)?,
            rows: Vec::with_capacity(alloc, circuit.and_count() as usize)?,
        })
    }

    /// The garbling, once all gates are garbled. Wires behind the table are not set.
    fn finish<C: Allocator>(self, circuit: &Circuit<C>) -> Result<Garbling<A>, Memory>
        ensures { IfOk result (λ g. g ≡ record {
          zero_labels = take circuit.now.wires self.labels.items
              ++ replicate (circuit.now.wires - length self.labels.items) 0;
          rows = self.rows.items;
          outputs = output_wires circuit.now;
        }) }
    {
        circuit.law_lawful();
        let PartialGarbling {
            offset: _,
            mut labels,
            rows,
        } = self;
        labels.resize(circuit.wires() as usize, Label::ZERO)?;
        Ok(Garbling::from_parts(labels, rows, circuit.output_wires()))
    }

    /// The labels of the wires that an operation reads first and second.
    #[inline(always)]
    fn read(&self, operation: Operation) -> (Label, Label)
        requires { EachRead (λ w. w < length self.now.labels.items) operation }
        ensures first { result.0 ≡ first_read (slice_index self.now.labels.items) operation }
        ensures second { result.1 ≡ second_read (slice_index self.now.labels.items) operation }
    {
        labels_read(&self.labels, operation)
    }

    /// Gives a wire its label, and adds a row pair if there is one.
    #[inline(always)]
    fn put(&mut self, wires: u32, wire: u32, made: (Label, Option<RowPair>)) -> Result<(), Memory>
        requires place { wire < wires }
        requires few { length self.old.labels.items ≤ wires }
        ensures offset { OnOk result (self.new.offset ≡ self.old.offset) }
        ensures label { OnOk result ((w : ℕ) → slice_index self.new.labels.items w
            ≡ put (slice_index self.old.labels.items) wire made.0 w) }
        ensures there { OnOk result (wire < length self.new.labels.items) }
        ensures kept { OnOk result (length self.old.labels.items ≤ length self.new.labels.items) }
        ensures few { OnOk result (length self.new.labels.items ≤ wires) }
        ensures rows { OnOk result
            (self.new.rows.items ≡ with_row_pair self.old.rows.items made.1) }
    {
        let (label, rows) = made;
        if wire as usize >= self.labels.len() {
            lengthen(&mut self.labels, wires, wire)?;
        }
        self.labels[wire as usize] = label;
        if let Some(pair) = rows {
            self.rows.push(pair)?;
        }
        Ok(())
    }
}
