//! Evaluating a whole circuit on one thread.

ghost use Rattle.std.specs.Prelude.{◌≡◌, ◌≤◌, ◌+◌, ℕ, length, map, IfOk};
ghost use Rattle.std.specs.List.{range_with_len};
ghost use Rattle.gc_netlist.specs.Circuit.{and_count, and_number, input_wires, output_wires};
ghost use Rattle.gc_netlist.specs.Solution.{on_outputs};
ghost use Rattle.gc_half.specs.Evaluation.{AreActiveFrom};
ghost use Rattle.gc_half.specs.Joined.{AreOutputLabels};
ghost use Rattle.gc_half.specs.Pieces.{EvaluatesOn, CanEvaluate, EndsPiece};

use crate::active_table::ActiveTable;
use crate::first::FirstAnd;
use crate::garbling::RowPair;
use crate::labels::padded_labels;
use crate::numbers::left_after;
use gc_circuit::{Circuit, Memory};
use gc_label::Label;
use std::alloc::Allocator;

/// What an evaluation begins with.
#[derive(Clone, Copy)]
pub struct Evaluation<'r> {
    /// The row pair of each AND gate.
    pub rows: &'r [RowPair],
    /// The active labels of the input wires.
    pub inputs: &'r [Label],
}

/// The active labels of all wires, evaluated from row pairs and active labels of the input wires, gate after gate in
/// file order: 16 zero bytes for a wire that is not set. AND gates are numbered from `first` on. It allocates once, for
/// the labels. The caller ensures that there are as many row pairs as AND gates, and as many labels as input wires.
pub fn evaluate_from<A: Allocator + Copy, C: Allocator>(
    alloc: A,
    circuit: &Circuit<C>,
    first: FirstAnd,
    given: Evaluation<'_>,
) -> Result<Vec<Label, A>, Memory>
    requires rows { length given.rows.now ≡ and_count circuit.now }
    requires inputs { length given.inputs.now ≡ input_wires circuit.now }
    ensures { IfOk result (λ v. AreActiveFrom first circuit.now
        given.entry.rows.now given.entry.inputs.now v.items) }
{
    circuit.law_lawful();
    let labels = padded_labels(alloc, circuit.wires(), given.inputs)?;
    let (active, _) = evaluate_piece(circuit, ActiveTable::new(first, labels), 0, given.rows);
    Ok(active.into_labels())
}

/// The active labels of the output wires, in order, evaluated from row pairs and active labels of the input wires,
/// where AND gates are numbered from `first` on ("Two Halves Make a Whole", the procedure Ev). It allocates once for
/// the labels of all wires and once for those of the output wires. The caller ensures that there are as many row pairs
/// as AND gates, and as many labels as input wires.
pub fn evaluate_labels<A: Allocator + Copy, C: Allocator>(
    alloc: A,
    circuit: &Circuit<C>,
    first: FirstAnd,
    given: Evaluation<'_>,
) -> Result<Vec<Label, A>, Memory>
    requires rows { length given.rows.now ≡ and_count circuit.now }
    requires inputs { length given.inputs.now ≡ input_wires circuit.now }
    ensures { IfOk result (λ v. AreOutputLabels first circuit.now
        given.entry.rows.now given.entry.inputs.now v.items) }
{
    circuit.law_lawful();
    let active = evaluate_from(alloc, circuit, first, given)?;
    Ok(Vec::from_slice(alloc, output_labels(circuit, &active))?)
}

/// The labels of the output wires, which are the last ones, out of a label for each wire. The caller ensures that there
/// is a label for each wire.
pub fn output_labels<'l, C: Allocator>(circuit: &Circuit<C>, labels: &'l [Label]) -> &'l [Label]
    requires { length labels.now ≡ circuit.now.wires }
    ensures count { length result.now ≡ output_wires circuit.now }
    ensures last { (values : ℕ → ℕ) → labels.now ≡ map values (range_with_len 0 circuit.now.wires)
        → result.now ≡ on_outputs circuit.now values }
{
    let first = circuit.wires() - circuit.output_wires();
    let (_, last) = labels.split_at(first as usize);
    last
}

/// The table after the gates from `from` on, until all these row pairs are used, and up to the next AND gate or the
/// end; and the place of that gate in the file. The caller ensures that there are as many gates, that those before are
/// evaluated in the table, and that there are as many AND gates left.
pub(crate) fn evaluate_piece<A: Allocator, C: Allocator>(
    circuit: &Circuit<C>,
    mut table: ActiveTable<A>,
    from: u32,
    rows: &[RowPair],
) -> (ActiveTable<A>, u32)
    requires begun { CanEvaluate circuit.now from table }
    requires gates { from ≤ length circuit.now.gates }
    requires room { and_number circuit.now from + length rows.now ≤ and_count circuit.now }
    ensures evaluated { EvaluatesOn circuit.now rows.now from result.1 table result.0 }
    ensures ends { EndsPiece circuit.now from (length rows.now) result.1 }
{
    circuit.law_lawful();
    let mut left = rows.len();
    for i in from..circuit.gates() {
        let gate = circuit.gate(i);
        let Some(after) = left_after(left, gate.operation) else {
            return (table, i);
        };
        table.step((rows.len() - left) as u32, rows, gate);
        left = after;
    }
    (table, circuit.gates())
}
