//! The command `plain`: evaluating a circuit as it is, without garbling.

ghost use Rattle.std.specs.Prelude.{◌≡◌, ℕ, List, map, IfOk, IfErr, IfSome, string_bytes};
ghost use Rattle.gc_command.specs.Lines.{form_by_flag};
ghost use Rattle.gc_command.specs.Plain.{AnswersPlain, HasPlainFault};
ghost use Rattle.gc_command.specs.Fault.{HasReadCause};

use crate::circuit_file::read_circuit;
use crate::fault::Fault;
use crate::lines::output_lines;
use crate::value_form::ValueForm;
use crate::values::read_values;
use gc_circuit::plain_eval;
use gc_disk::Files;
use gc_order::PlainOrder;
use std::alloc::Allocator;

/// Evaluates the circuit of a file on the values, and returns the lines of its output values in this form.
#[inline(never)]
pub fn plain<A: Allocator + Copy, F: Files>(
    alloc: A,
    order: &PlainOrder,
    files: &mut F,
) -> Result<Vec<u8, A>, Fault>
    ensures answers { IfOk result
        (λ lines. IfSome (F.bytes files.old (string_bytes order.now.circuit))
        (λ bytes. AnswersPlain bytes (form_by_flag order.now.hex)
        (map string_bytes order.now.values.items) lines.items)) }
    ensures fault { IfErr result
        (λ fault. IfSome (F.bytes files.old (string_bytes order.now.circuit))
        (λ bytes. HasPlainFault bytes (map string_bytes order.now.values.items) fault)) }
    ensures cause { IfErr result (HasReadCause (F.failures files.old) (F.failures files.new)
        (string_bytes order.now.circuit)) }
    ensures same { (name : List ℕ) → F.bytes files.new name ≡ F.bytes files.old name }
{
    let name = order.circuit.as_str();
    let circuit = read_circuit(alloc, name, files)?;
    let values = read_values(alloc, circuit.input_widths(), &order.values)?;
    let outputs = plain_eval(alloc, &circuit, &values)?;
    let form = ValueForm::by_flag(order.hex);
    Ok(output_lines(alloc, form, circuit.output_widths(), &outputs)?)
}
