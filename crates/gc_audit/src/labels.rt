//! Comparing label files with the labels of a circuit's input wires.

ghost use Rattle.std.specs.Prelude.{◌≡◌, ◌≢◌, ◌≤◌, ◌+◌, ◌↔◌, ℕ, Bool, List, MatchOption, IfOk, length};
ghost use Rattle.gc_netlist.specs.Circuit.{input_wires};
ghost use Rattle.gc_half.specs.Evaluation.{encode};
ghost use Rattle.gc_half.specs.Comparing.{HasLabels};
ghost use Rattle.gc_half.specs.Garbling.{FitsCircuit};
ghost use Rattle.gc_audit.specs.Labels.{IsLabelsVerdict, IsVerdictWith, IsDealt, IsDealtWith, HasBits, HasInputLabels, IsVerdictFrom};

use crate::reference::{Reference, SeedReference};
use gc_circuit::Memory;
use gc_file::{LabelFile, first_wire};
use gc_label::{Label, Offset, offset};
use std::alloc::{Allocator, Global};

/// What an audit finds of a label file.
#[derive(Drop)]
pub enum LabelsVerdict<A: Allocator = Global> {
    /// The circuit has no input value of the file's index.
    NoValue,
    /// The file has not a label for each wire of its input value.
    WrongWidth,
    /// The label of this wire is neither its zero label nor its one label: the first such wire of the value, by the
    /// circuit's wire numbers.
    WrongLabel(u32),
    /// The bits that the labels stand for, in wire order.
    Bits(Vec<bool, A>),
}

/// Compares a label file with the labels of a circuit's input wires, and returns the first in the order of
/// [`LabelsVerdict`] that holds. The verdict is bits exactly where the file is the label file that a dealer writes of
/// the circuit, the seed and these bits.
///
/// The labels are those of the seed: this is the caller's condition. It allocates once, for the bits; `Memory` replaces
/// a verdict only where this was refused.
pub fn audit_labels<A: Allocator, B: Allocator, C: Allocator, D: Allocator>(
    alloc: A,
    of: &SeedReference<'_, B, C>,
    file: &LabelFile<D>,
) -> Result<LabelsVerdict<A>, Memory>
    requires { HasLabels of.now.circuit.now of.now.seed.now of.now.labels.now }
    ensures verdict { IfOk result
        (IsLabelsVerdict of.now.circuit.now of.now.seed.now file.now) }
    ensures dealt { IfOk result (λ verdict. (bits : List Bool) → HasBits verdict bits
        ↔ IsDealt of.now.circuit.now of.now.seed.now file.now bits) }
{
    of.circuit.law_lawful();
    let reference = Reference {
        circuit: of.circuit,
        garbling: of.labels,
        offset: offset(of.seed),
    };
    audit_labels_with_offset(alloc, &reference, file)
}

/// Compares a label file with the labels of a circuit's input wires, as [`audit_labels`] does, where the caller has the
/// offset. The garbling fits the circuit: this is the caller's condition. The verdict is that by any zero labels that
/// agree with the garbling's on the input wires.
pub fn audit_labels_with_offset<A: Allocator, B: Allocator, C: Allocator, D: Allocator>(
    alloc: A,
    of: &Reference<'_, B, C>,
    file: &LabelFile<D>,
) -> Result<LabelsVerdict<A>, Memory>
    requires { FitsCircuit of.now.circuit.now of.now.garbling.now }
    ensures verdict { (zero_label : ℕ → ℕ)
        → HasInputLabels of.now.circuit.now of.now.garbling.now zero_label
        → IfOk result (IsVerdictWith of.now.circuit.now of.now.offset zero_label file.now) }
    ensures dealt { (zero_label : ℕ → ℕ)
        → HasInputLabels of.now.circuit.now of.now.garbling.now zero_label
        → IfOk result (λ verdict. (bits : List Bool) → HasBits verdict bits
        ↔ IsDealtWith of.now.circuit.now of.now.offset zero_label file.now bits) }
{
    of.law_coloured();
    let index = file.index() as usize;
    let filed = file.labels();
    let Some(width) = of.circuit.input_widths().get(index) else {
        return Ok(LabelsVerdict::NoValue);
    };
    if filed.len() != *width as usize {
        return Ok(LabelsVerdict::WrongWidth);
    }
    let first = first_wire(of.circuit, index);
    compare(alloc, of, first, filed)
}

/// The bits that the filed labels stand for on the input wires from the first one on, or the first wire whose label
/// stands for none. The caller ensures that the garbling fits the circuit, and that these are input wires.
fn compare<A: Allocator, B: Allocator, C: Allocator>(
    alloc: A,
    of: &Reference<'_, B, C>,
    first: u32,
    filed: &[Label],
) -> Result<LabelsVerdict<A>, Memory>
    requires labels { FitsCircuit of.now.circuit.now of.now.garbling.now }
    requires wires { first + length filed.now ≤ input_wires of.now.circuit.now }
    ensures { (zero_label : ℕ → ℕ)
        → HasInputLabels of.now.circuit.now of.now.garbling.now zero_label
        → IfOk result (IsVerdictFrom of.now.offset zero_label first filed.now) }
{
    of.circuit.law_lawful();
    let mut bits = Vec::with_capacity(alloc, filed.len())?;
    for (i, label) in filed.iter().enumerate() {
        let wire = first + i as u32;
        let Some(bit) = bit_of(of.offset, of.garbling.zero_label(wire), *label) else {
            return Ok(LabelsVerdict::WrongLabel(wire));
        };
        bits.push(bit)?;
    }
    Ok(LabelsVerdict::Bits(bits))
}

/// The bit that a label stands for on a wire with this zero label, if it is one of the wire's two labels.
fn bit_of(offset: Offset, zero_label: Label, label: Label) -> Option<bool>
    ensures { MatchOption result ((bit : Bool) → label ≢ encode offset zero_label bit)
        (λ bit. label ≡ encode offset zero_label bit) }
{
    if label == zero_label {
        Some(false)
    } else if label == zero_label.xor(offset.label()) {
        Some(true)
    } else {
        None
    }
}
