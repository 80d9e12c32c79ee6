//! Comparing row pairs.

ghost use Rattle.std.specs.Prelude.{◌≡◌, ◌<◌, ◌≤◌, ◌+◌, ◌*◌, List, IfSome, MatchOption, All, length, flat_map, slice_get, Some};
ghost use Rattle.gc_netlist.specs.declared.gate.Gate.{Gate};
ghost use Rattle.gc_netlist.specs.Circuit.{and_count};
ghost use Rattle.gc_half.specs.declared.garbling.RowPair.{RowPair};
ghost use Rattle.gc_half.specs.Comparing.{IsFirstMismatch};
ghost use Rattle.gc_half.specs.Garbling.{FitsCircuit};
ghost use Rattle.gc_file.specs.GarbledFile.{IsRowPair, row_bytes};
ghost use Rattle.gc_audit.specs.Garbled.{IsRowsAudit};
ghost use Rattle.gc_audit.specs.Rows.{IsAndGate, DifferIn, IsRowDifference};

use gc_circuit::Circuit;
use gc_file::read_rows;
use gc_file::sizes::PAIR;
use gc_half::{Garbling, Mismatch, NO_ROWS, RowPair};
use std::alloc::Allocator;

/// Which rows of two row pairs differ.
#[derive(Clone, Copy, PartialEq, Eq, Debug)]
pub enum DifferingRows {
    /// The generator's row alone.
    Generator,
    /// The evaluator's row alone.
    Evaluator,
    /// Both rows.
    Both,
}

/// The first AND gate whose row pair differs.
#[derive(Clone, Copy, PartialEq, Eq, Debug)]
pub struct RowDifference {
    /// The gate's number among the AND gates, in file order, from 0.
    pub number: u32,
    /// The gate's place in the file, among all gates, from 0.
    pub gate: u32,
    /// The wire that the gate sets.
    pub wire: u32,
    /// Which of its rows differ.
    pub rows: DifferingRows,
}

/// The first AND gate whose row pair is not the garbling's, which may have any first AND number. The row pairs are
/// bytes, 32 for each AND gate: the generator's row, and then the evaluator's. The caller ensures that the garbling
/// fits the circuit, and that there is a row pair for each AND gate. It allocates nothing.
pub fn audit_row_bytes<A: Allocator, B: Allocator>(
    circuit: &Circuit<A>,
    garbling: &Garbling<B>,
    bytes: &[u8],
) -> Option<RowDifference>
    requires fits { FitsCircuit circuit.now garbling.now }
    requires size { length bytes.now ≡ 32 * and_count circuit.now }
    ensures { (rows : List RowPair) → bytes.now ≡ flat_map row_bytes rows → All IsRowPair rows
        → IsRowsAudit circuit.now garbling.now rows result }
{
    row_difference(circuit, first_mismatch_in(garbling.rows(), bytes))
}

/// The first row pair in bytes that is not the garbling's. The caller ensures that there are as many.
fn first_mismatch_in(garbled: &[RowPair], bytes: &[u8]) -> Option<Mismatch>
    requires { length bytes.now ≡ 32 * length garbled.now }
    ensures within { IfSome result (λ m. m.place < length garbled.now) }
    ensures first { (rows : List RowPair) → bytes.now ≡ flat_map row_bytes rows
        → All IsRowPair rows
        → MatchOption result (rows ≡ garbled.now) (IsFirstMismatch rows garbled.now) }
{
    for place in 0..garbled.len() {
        let given = row_in(bytes, place);
        if given != garbled[place] {
            return Some(Mismatch {
                place,
                given,
                made: garbled[place],
            });
        }
    }
    None
}

/// The row pair at a place in bytes. The caller ensures that there is one.
fn row_in(bytes: &[u8], place: usize) -> RowPair
    requires { 32 * place + 32 ≤ length bytes.now }
    ensures { (rows : List RowPair) → bytes.now ≡ flat_map row_bytes rows → All IsRowPair rows
        → slice_get rows place ≡ Some result }
{
    let mut row = [NO_ROWS];
    read_rows(&bytes[PAIR * place..PAIR * place + PAIR], &mut row);
    row[0]
}

/// The first row pair of a file that is not the garbling's. The caller ensures that there are as many.
pub(crate) fn first_mismatch(garbled: &[RowPair], filed: &[RowPair]) -> Option<Mismatch>
    requires { length filed.now ≡ length garbled.now }
    ensures { MatchOption result (filed.now ≡ garbled.now)
        (IsFirstMismatch filed.now garbled.now) }
{
    for place in 0..garbled.len() {
        let given = filed[place];
        if given != garbled[place] {
            return Some(Mismatch {
                place,
                given,
                made: garbled[place],
            });
        }
    }
    None
}

/// The AND gate of the first row pair that is not the garbling's. The caller ensures that it is compared with the
/// garbling's row pairs, of which there is one for each AND gate.
pub(crate) fn row_difference<A: Allocator>(
    circuit: &Circuit<A>,
    first: Option<Mismatch>,
) -> Option<RowDifference>
    requires { IfSome first (λ m. m.place < and_count circuit.now) }
    ensures { (filed garbled : List RowPair)
        → MatchOption first (filed ≡ garbled) (IsFirstMismatch filed garbled)
        → MatchOption result (filed ≡ garbled) (IsRowDifference circuit.now filed garbled) }
{
    circuit.law_lawful();
    let mismatch = first?;
    let rows = differing_rows(mismatch.given, mismatch.made)?;
    Some(difference_at(circuit, mismatch.place as u32, rows))
}

/// Which rows of two pairs differ.
fn differing_rows(filed: RowPair, garbled: RowPair) -> Option<DifferingRows>
    ensures { MatchOption result (filed ≡ garbled) (DifferIn filed garbled) }
{
    let same_generator = filed.generator == garbled.generator;
    let same_evaluator = filed.evaluator == garbled.evaluator;
    match (same_generator, same_evaluator) {
        (true, true) => None,
        (false, true) => Some(DifferingRows::Generator),
        (true, false) => Some(DifferingRows::Evaluator),
        (false, false) => Some(DifferingRows::Both),
    }
}

/// The difference at the AND gate with this number. The caller ensures that there is one.
fn difference_at<A: Allocator>(
    circuit: &Circuit<A>,
    number: u32,
    rows: DifferingRows,
) -> RowDifference
    requires { number < and_count circuit.now }
    ensures number { result.number ≡ number }
    ensures gate { IsAndGate circuit.now number result.gate result.wire }
    ensures rows { result.rows ≡ rows }
{
    let gate = and_gate(circuit, number);
    RowDifference {
        number,
        gate,
        wire: circuit.gate(gate).set,
        rows,
    }
}

/// The place in the file of the AND gate with this number. The caller ensures that there is one. It goes through the
/// gates once.
fn and_gate<A: Allocator>(circuit: &Circuit<A>, number: u32) -> u32
    requires { number < and_count circuit.now }
    ensures bound { result < length circuit.now.gates }
    ensures gate { (gate : Gate) → slice_get circuit.now.gates result ≡ Some gate
        → IsAndGate circuit.now number result gate.set }
{
    let mut ands = 0u32;
    for i in 0..circuit.gates() {
        if circuit.gate(i).operation.is_and() {
            if ands == number {
                return i;
            }
            ands += 1;
        }
    }
    unreachable!()
}
