//! Garbling a circuit and comparing given row pairs with those that are made.

ghost use Rattle.std.specs.Prelude.{◌≡◌, ◌≤◌, ◌+◌, ◌++◌, ℕ, List, [], length, slice_index, take, IfOk, MatchOption};
ghost use Rattle.gc_netlist.specs.Circuit.{and_count, output_wires};
ghost use Rattle.gc_half.specs.Comparing.{AreCompared, IsFirstMismatch, IsNextMismatch};
ghost use Rattle.gc_half.specs.Garbling.{IsGarbled, IsGarbledFrom};
ghost use Rattle.gc_half.specs.Streaming.{IsGarbledSoFar, IsGarblerOf};
ghost use Rattle.gc_half.specs.declared.garbling.RowPair.{RowPair};

use crate::garbling::{Garbling, Mismatch, NO_ROWS, RowPair};
use crate::streaming_garbler::StreamingGarbler;
use gc_circuit::{Circuit, Memory};
use gc_label::{Label, Seed};
use std::alloc::Allocator;

/// How many row pairs are made at once, on the stack, and then compared.
const PIECE: usize = 256;

/// The garbling of a circuit under a seed, and the first of the given row pairs that is not the garbling's, if there is
/// one. Row pairs are compared in small pieces, as they are made, and take the places of the given ones: it allocates
/// for the labels alone, once. The caller ensures that a row pair is given for each AND gate.
pub fn garble_and_compare<A: Allocator + Copy, C: Allocator>(
    alloc: A,
    circuit: &Circuit<C>,
    seed: &Seed,
    given: Vec<RowPair, A>,
) -> Result<(Garbling<A>, Option<Mismatch>), Memory>
    requires { length given.items ≡ and_count circuit.now }
    ensures garbled { IfOk result (λ made. IsGarbled circuit.now seed.now made.0) }
    ensures compared { IfOk result (λ made. MatchOption made.1 (given.items ≡ made.0.rows)
        (IsFirstMismatch given.items made.0.rows)) }
{
    circuit.law_lawful();
    let garbler = StreamingGarbler::begin_under_seed(alloc, circuit, seed)?;
    let mut rows = given;
    let (labels, first) = replace_all(circuit, garbler, &mut rows);
    let garbling = Garbling::from_parts(labels, rows, circuit.output_wires());
    Ok((garbling, first))
}

/// Makes all row pairs, in the places of given ones. Returns the zero labels of all wires, and the first mismatch. The
/// caller ensures that the garbler was begun with this circuit, that no row pair is made, and that there is a place for
/// each AND gate.
fn replace_all<A: Allocator + Copy, C: Allocator>(
    circuit: &Circuit<C>,
    mut garbler: StreamingGarbler<A>,
    rows: &mut [RowPair],
) -> (Vec<Label, A>, Option<Mismatch>)
    requires begun { IsGarblerOf circuit.now garbler }
    requires none { garbler.made ≡ 0 }
    requires places { length rows.old ≡ and_count circuit.now }
    ensures garbled { (given : List ℕ) → IsGarbledSoFar circuit.now given [] garbler
        → IsGarbledFrom garbler.offset (slice_index given) garbler.first circuit.now (record {
          zero_labels = result.0.items;
          rows = rows.new;
          outputs = output_wires circuit.now;
        }) }
    ensures compared { MatchOption result.1 (rows.old ≡ rows.new)
        (IsFirstMismatch rows.old rows.new) }
{
    circuit.law_lawful();
    let mut piece = [NO_ROWS; PIECE];
    let mut first = None;
    while !garbler.is_whole(circuit) {
        let from = garbler.made() as usize;
        let made = garbler.next(circuit, &mut piece) as usize;
        first = replace(rows, from, &piece[..made], first);
    }
    (garbler.into_labels(), first)
}

/// Puts the row pairs of a piece in the places of given ones from `from` on, and returns the first mismatch in these
/// places and in those before, from the one in those before. The caller ensures that there are the places.
fn replace(
    rows: &mut [RowPair],
    from: usize,
    piece: &[RowPair],
    first: Option<Mismatch>,
) -> Option<Mismatch>
    requires { from + length piece.now ≤ length rows.old }
    ensures made { take (from + length piece.now) rows.new ≡ take from rows.old ++ piece.now }
    ensures compared { (given : List RowPair) → AreCompared given from rows.old first
        → AreCompared given (from + length piece.now) rows.new result }
{
    let mut first = first;
    for i in 0..piece.len() {
        let place = from + i;
        let made = piece[i];
        first = next_mismatch(first, place, rows[place], &made);
        rows[place] = made;
    }
    first
}

/// The first mismatch, once this pair is made at a place where that one was given.
#[inline(always)]
fn next_mismatch(
    first: Option<Mismatch>,
    place: usize,
    given: RowPair,
    made: &RowPair,
) -> Option<Mismatch>
    ensures { IsNextMismatch first place given made.now result }
{
    if first.is_none() && given != *made {
        Some(Mismatch {
            place,
            given,
            made: *made,
        })
    } else {
        first
    }
}
