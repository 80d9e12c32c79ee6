ghost use Rattle.std.specs.Prelude.{◌≡◌, length, slice_index_or, false};
ghost use Rattle.gc_netlist.specs.Reading.{check_read, check_set, check_reads, check_gate};
ghost use Rattle.gc_netlist.specs.Met.{wire_of_one, wire_of_two, wire_at_fault};

use gc_netlist::{Gate, Operation, ReadFault};

/// A wire that is read: there is such a wire, and it is set.
#[tactic(auto, unfolding(gc_netlist::specs::Reading::check_read))]
fn check_read(is_set: &[bool], wire: u32) -> Result<(), ReadFault>
    ensures { result
        ≡ check_read (length is_set.now) (λ w. slice_index_or is_set.now w false) wire }
{
    match is_set.get(wire as usize) {
        Some(true) => Ok(()),
        Some(false) => Err(ReadFault::Unset),
        None => Err(ReadFault::NoSuchWire),
    }
}

/// A wire to be set: there is such a wire, and it isn't set yet.
#[tactic(auto, unfolding(gc_netlist::specs::Reading::check_set))]
fn check_set(is_set: &[bool], wire: u32) -> Result<(), ReadFault>
    ensures { result ≡ check_set (length is_set.now) (λ w. slice_index_or is_set.now w false) wire }
{
    match is_set.get(wire as usize) {
        Some(true) => Err(ReadFault::SetTwice),
        Some(false) => Ok(()),
        None => Err(ReadFault::NoSuchWire),
    }
}

/// Each wire that the operation reads, left to right.
#[tactic(auto, unfolding(gc_netlist::specs::Reading::check_reads))]
fn check_reads(is_set: &[bool], operation: Operation) -> Result<(), ReadFault>
    ensures { result
        ≡ check_reads (length is_set.now) (λ w. slice_index_or is_set.now w false) operation }
{
    match operation {
        Operation::Xor(a, b) | Operation::And(a, b) => {
            check_read(is_set, a)?;
            check_read(is_set, b)
        }
        Operation::Inv(a) | Operation::Eqw(a) => check_read(is_set, a),
        Operation::Eq(_) => Ok(()),
    }
}

/// The wires that the gate reads, and then the wire that it sets.
#[tactic(auto, unfolding(gc_netlist::specs::Reading::check_gate))]
pub(crate) fn check_gate(is_set: &[bool], gate: Gate) -> Result<(), ReadFault>
    ensures { result
        ≡ check_gate (length is_set.now) (λ w. slice_index_or is_set.now w false) gate }
{
    check_reads(is_set, gate.operation)?;
    check_set(is_set, gate.set)
}

/// A wire of a gate, and how many tokens it is before the end of the gate.
#[derive(Clone, Copy)]
pub(crate) struct WireBack {
    pub(crate) wire: u32,
    pub(crate) back: usize,
}

/// The wire at fault of a gate that reads this wire last.
fn wire_of_one(is_set: &[bool], read: u32, set: u32) -> WireBack
    ensures { (result.wire, result.back)
        ≡ wire_of_one (length is_set.now) (λ w. slice_index_or is_set.now w false) read set }
{
    match check_read(is_set, read) {
        Ok(()) => WireBack { wire: set, back: 2 },
        Err(_) => WireBack {
            wire: read,
            back: 3,
        },
    }
}

/// The wire at fault of a gate that reads two wires.
fn wire_of_two(is_set: &[bool], first: u32, second: u32, set: u32) -> WireBack
    ensures { (result.wire, result.back) ≡ wire_of_two (length is_set.now)
        (λ w. slice_index_or is_set.now w false) first second set }
{
    match check_read(is_set, first) {
        Ok(()) => wire_of_one(is_set, second, set),
        Err(_) => WireBack {
            wire: first,
            back: 4,
        },
    }
}

/// The wire at fault of a gate that the check refuses: the first that it reads and that is at fault, or else the wire
/// that it sets.
#[tactic(auto, using(crate::proofs::CheckLemmas::reads_one))]
#[cold]
pub(crate) fn wire_at_fault(is_set: &[bool], gate: Gate) -> WireBack
    ensures { (result.wire, result.back) ≡ wire_at_fault (length is_set.now)
        (λ w. slice_index_or is_set.now w false) gate.set gate.operation }
{
    match (gate.operation.first_wire(), gate.operation.second_wire()) {
        (Some(first), Some(second)) => wire_of_two(is_set, first, second, gate.set),
        (Some(read), None) => wire_of_one(is_set, read, gate.set),
        _ => WireBack {
            wire: gate.set,
            back: 2,
        },
    }
}
