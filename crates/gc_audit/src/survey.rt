//! Passes over the gates of a circuit.

ghost use Rattle.std.specs.Prelude.{◌≡◌, ◌<◌, ◌||◌, ℕ, false, IfOk, length, map, count_by, slice_index_or};
ghost use Rattle.std.specs.List.{range_with_len};
ghost use Rattle.gc_netlist.specs.Circuit.{EachRead, reads};
ghost use Rattle.gc_audit.specs.Counts.{AreCounts};
ghost use Rattle.gc_depth.specs.Depth.{and_depth_rule};
ghost use Rattle.gc_audit.specs.Stats.{IsGreatest, IsStats, depth_rule, is_read, is_unread};

use crate::counts::Counts;
use crate::depths::Depths;
use crate::figures::Stats;
use gc_circuit::{Circuit, Memory, Operation};
use gc_file::Version;
use gc_file::sizes::garbled_size;
use std::alloc::Allocator;

/// What one pass over the gates finds.
#[derive(Drop)]
struct Survey<A: Allocator> {
    counts: Counts,
    /// The greatest depth, and the greatest AND depth.
    deepest: Depths,
    /// Whether a gate reads each wire.
    read: Vec<bool, A>,
}

impl<A: Allocator + Copy> Survey<A> {
    /// What the pass over the gates of a circuit finds.
    fn of<C: Allocator>(alloc: A, circuit: &Circuit<C>) -> Result<Survey<A>, Memory>
        ensures counts { IfOk result (λ s. AreCounts circuit.now.gates s.counts) }
        ensures depth { IfOk result (λ s. IsGreatest depth_rule circuit.now s.deepest.depth) }
        ensures and_depth { IfOk result (λ s.
            IsGreatest and_depth_rule circuit.now s.deepest.and_depth) }
        ensures read { IfOk result (λ s.
            s.read.items ≡ map (is_read circuit.now.gates) (range_with_len 0 circuit.now.wires)) }
    {
        let wires = circuit.wires() as usize;
        let mut depths = vec![in alloc; Depths::ZERO; wires]?;
        let mut read = vec![in alloc; false; wires]?;
        let mut counts = Counts::ZERO;
        let mut deepest = Depths::ZERO;
        for i in 0..circuit.gates() {
            let gate = circuit.gate(i);
            counts.add(gate.operation);
            mark_read(&mut read, gate.operation);
            let reached = Depths::of(&depths, gate.operation);
            depths[gate.set as usize] = reached;
            deepest = deepest.max(reached);
        }
        Ok(Survey {
            counts,
            deepest,
            read,
        })
    }
}

/// Marks the wires that an operation reads.
fn mark_read(read: &mut [bool], operation: Operation)
    requires { EachRead (λ w. w < length read.old) operation }
    ensures { (w : ℕ) → w < length read.old
        → slice_index_or read.new w false ≡ (slice_index_or read.old w false || reads operation w) }
{
    if let Some(first) = operation.first_wire() {
        read[first as usize] = true;
    }
    if let Some(second) = operation.second_wire() {
        read[second as usize] = true;
    }
}

/// How many gates set a wire that no gate reads and that is no output wire, from whether a gate reads each wire.
fn unread_gates<C: Allocator>(circuit: &Circuit<C>, read: &[bool]) -> u32
    requires { read.now ≡ map (is_read circuit.now.gates) (range_with_len 0 circuit.now.wires) }
    ensures { result ≡ count_by (is_unread circuit.now) circuit.now.gates }
{
    let first_output = circuit.wires() - circuit.output_wires();
    let mut unread = 0;
    for i in 0..circuit.gates() {
        let gate = circuit.gate(i);
        if !read[gate.set as usize] && gate.set < first_output {
            unread += 1;
        }
    }
    unread
}

/// The statistics of a circuit, from two passes over its gates. It takes nine bytes of memory for each wire, in two
/// allocations, and keeps none.
pub fn stats<A: Allocator + Copy, C: Allocator>(
    alloc: A,
    circuit: &Circuit<C>,
) -> Result<Stats, Memory>
    ensures { IfOk result (IsStats circuit.now) }
{
    let survey = Survey::of(alloc, circuit)?;
    Ok(Stats {
        xor: survey.counts.xor,
        and: survey.counts.and,
        inv: survey.counts.inv,
        eq: survey.counts.eq,
        eqw: survey.counts.eqw,
        depth: survey.deepest.depth,
        and_depth: survey.deepest.and_depth,
        unread: unread_gates(circuit, &survey.read),
        garbled1: garbled_size(circuit, Version::One),
        garbled2: garbled_size(circuit, Version::Two),
    })
}
