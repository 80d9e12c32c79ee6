//! Garbling a whole circuit on one thread.

ghost use Rattle.std.specs.Prelude.{◌≡◌, ◌≤◌, ◌+◌, ℕ, [], length, slice_index, IfOk};
ghost use Rattle.gc_netlist.specs.Circuit.{and_count, input_wires, output_wires};
ghost use Rattle.gc_half.specs.Garbling.{IsGarbled, IsGarbledFrom};
ghost use Rattle.gc_half.specs.Pieces.{IsSomePiece, GarblesOn, EndsPiece};
ghost use Rattle.gc_half.specs.Streaming.{KeepsFrom};
ghost use Rattle.gc_half.specs.Waiting.{rows_made};

use crate::first::FirstAnd;
use crate::garbling::{Garbling, NO_ROWS, RowPair};
use crate::labels::{input_zero_labels, padded_labels};
use crate::numbers::left_after;
use crate::zero_table::ZeroTable;
use gc_circuit::{Circuit, Memory};
use gc_label::{Label, Offset, Seed, offset};
use std::alloc::Allocator;

/// What a garbling starts from, other than a seed.
#[derive(Clone, Copy)]
pub struct Start<'l> {
    /// The offset.
    pub offset: Offset,
    /// The zero labels of the input wires.
    pub zero_labels: &'l [Label],
    /// The number of the first AND gate.
    pub first: FirstAnd,
}

/// Garbles a circuit from an offset, a zero label for each input wire, and the number of the first AND gate, gate after
/// gate in file order ("Two Halves Make a Whole", the procedure Gb). It allocates once for the labels and once for the
/// rows. The caller ensures that there are as many zero labels as input wires.
pub fn garble_from<A: Allocator + Copy, C: Allocator>(
    alloc: A,
    circuit: &Circuit<C>,
    start: Start<'_>,
) -> Result<Garbling<A>, Memory>
    requires { length start.zero_labels.now ≡ input_wires circuit.now }
    ensures { IfOk result (λ g. IsGarbledFrom start.entry.offset
        (slice_index start.entry.zero_labels.now) start.entry.first circuit.now g) }
{
    circuit.law_lawful();
    let labels = padded_labels(alloc, circuit.wires(), start.zero_labels)?;
    garble_over(circuit, start.offset, start.first, labels)
}

/// The garbling of a circuit under a seed, gate after gate in file order. It allocates for the labels and for the rows,
/// each once.
pub fn garble_one_thread<A: Allocator + Copy, C: Allocator>(
    alloc: A,
    circuit: &Circuit<C>,
    seed: &Seed,
) -> Result<Garbling<A>, Memory>
    ensures { IfOk result (λ g. IsGarbled circuit.now seed.now g) }
{
    circuit.law_lawful();
    let labels = input_zero_labels(alloc, circuit, seed)?;
    garble_over(circuit, offset(seed), FirstAnd::ZERO, labels)
}

/// The garbling of a circuit with an offset, AND gates that are numbered from `first` on, and the zero labels of the
/// input wires in a table of all wires, where each other wire has 16 zero bytes; the caller ensures this. It allocates
/// once, for the rows.
fn garble_over<A: Allocator + Copy, C: Allocator>(
    circuit: &Circuit<C>,
    offset: Offset,
    first: FirstAnd,
    labels: Vec<Label, A>,
) -> Result<Garbling<A>, Memory>
    requires wires { length labels.items ≡ circuit.now.wires }
    requires others { (w : ℕ) → input_wires circuit.now ≤ w → slice_index labels.items w ≡ 0 }
    ensures { IfOk result (λ g.
        IsGarbledFrom offset (slice_index labels.items) first circuit.now g) }
{
    circuit.law_lawful();
    let and_gates = circuit.and_count() as usize;
    let mut rows = Vec::with_capacity(*labels.allocator(), and_gates)?;
    rows.resize(and_gates, NO_ROWS)?;
    let labels = garble_whole(circuit, ZeroTable::new(offset, first, labels), &mut rows);
    Ok(Garbling::from_parts(labels, rows, circuit.output_wires()))
}

/// The zero labels of all wires, once all gates are garbled in this table. The row pairs are put in their places. The
/// caller ensures that no gate is garbled yet, and that there is a place for each AND gate.
fn garble_whole<A: Allocator, C: Allocator>(
    circuit: &Circuit<C>,
    table: ZeroTable<A>,
    rows: &mut [RowPair],
) -> Vec<Label, A>
    requires made { table.made ≡ 0 }
    requires waiting { table.waiting ≡ [] }
    requires wires { length table.labels ≡ circuit.now.wires }
    requires others { (w : ℕ) → input_wires circuit.now ≤ w → slice_index table.labels w ≡ 0 }
    requires places { length rows.old ≡ and_count circuit.now }
    ensures { IsGarbledFrom table.offset (slice_index table.labels) table.first circuit.now
        (record {
          zero_labels = result.items;
          rows = rows.new;
          outputs = output_wires circuit.now;
        }) }
{
    circuit.law_lawful();
    let (table, _) = garble_piece(circuit, table, 0, rows);
    let (labels, _) = table.finish(rows);
    labels
}

/// The table after the gates from `from` on, until each place has a row pair, and up to the next AND gate or the end;
/// and the place of that gate in the file. The caller ensures that there are as many gates, that those before are
/// garbled in the table, and that no row pair of the piece is made.
pub(crate) fn garble_piece<A: Allocator, C: Allocator>(
    circuit: &Circuit<C>,
    mut table: ZeroTable<A>,
    from: u32,
    rows: &mut [RowPair],
) -> (ZeroTable<A>, u32)
    requires begun { IsSomePiece circuit.now from table (rows_made table rows.old) }
    requires none { table.made + length table.waiting ≡ 0 }
    requires gates { from ≤ length circuit.now.gates }
    ensures garbled { GarblesOn circuit.now from result.1 table (rows_made table rows.old)
        result.0 (rows_made result.0 rows.new) }
    ensures rest { KeepsFrom (result.0.made + length result.0.waiting) rows.old rows.new }
    ensures ends { EndsPiece circuit.now from (length rows.old) result.1 }
{
    circuit.law_lawful();
    let mut left = rows.len();
    for i in from..circuit.gates() {
        let gate = circuit.gate(i);
        let Some(after) = left_after(left, gate.operation) else {
            return (table, i);
        };
        left = after;
        table.step(rows, gate);
    }
    (table, circuit.gates())
}
