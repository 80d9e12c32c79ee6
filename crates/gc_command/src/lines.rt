//! What commands print.

ghost use Rattle.std.specs.Prelude.{◌≡◌, ◌++◌, ◌∷◌, decimal, length, sum, IfOk, OnOk};
ghost use Rattle.gc_command.specs.Lines.{count_line, output_lines};

use crate::value_form::{ValueForm, push_value};
use itoa::Buffer;
use std::alloc::{AllocError, Allocator};

/// Adds the line of a name and a number.
pub fn push_count<A: Allocator>(
    lines: &mut Vec<u8, A>,
    name: &str,
    count: u64,
) -> Result<(), AllocError>
    ensures { OnOk result (lines.new.items
        ≡ lines.old.items ++ count_line name.now count) }
{
    lines.extend_from_slice(name.as_bytes())?;
    push_number(lines, count)?;
    lines.push(b'\n')?;
    Ok(())
}

/// Adds a space and the digits of a number.
pub fn push_number<A: Allocator>(lines: &mut Vec<u8, A>, number: u64) -> Result<(), AllocError>
    ensures { OnOk result (lines.new.items ≡ lines.old.items ++ 32 ∷ decimal number) }
{
    let mut buffer = Buffer::new();
    lines.push(b' ')?;
    lines.extend_from_slice(buffer.format(number).as_bytes())
}

/// The output values, one a line, in this form. The caller ensures that the widths are together as many as the bits.
pub fn output_lines<A: Allocator>(
    alloc: A,
    form: ValueForm,
    widths: &[u32],
    bits: &[bool],
) -> Result<Vec<u8, A>, AllocError>
    requires { sum widths.now ≡ length bits.now }
    ensures { IfOk result (λ lines. lines.items ≡ output_lines form widths.now bits.now) }
{
    let mut lines = Vec::with_capacity(alloc, form.room(widths.len(), bits.len()))?;
    push_output_lines(&mut lines, form, widths, bits)?;
    Ok(lines)
}

/// Adds the lines of output values, under the same condition.
pub fn push_output_lines<A: Allocator>(
    lines: &mut Vec<u8, A>,
    form: ValueForm,
    widths: &[u32],
    bits: &[bool],
) -> Result<(), AllocError>
    requires { sum widths.now ≡ length bits.now }
    ensures { OnOk result
        (lines.new.items ≡ lines.old.items ++ output_lines form widths.now bits.now) }
{
    let mut left = bits;
    for width in widths {
        let (value, others) = left.split_at(*width as usize);
        push_value(lines, form, value)?;
        lines.push(b'\n')?;
        left = others;
    }
    Ok(())
}

/// Adds a space and a word.
pub(crate) fn push_word<A: Allocator>(lines: &mut Vec<u8, A>, word: &str) -> Result<(), AllocError>
    ensures { OnOk result (lines.new.items ≡ lines.old.items ++ 32 ∷ word.now) }
{
    lines.push(b' ')?;
    lines.extend_from_slice(word.as_bytes())
}

/// Adds a space and a name, and a space and a number.
pub(crate) fn push_field<A: Allocator>(
    lines: &mut Vec<u8, A>,
    name: &str,
    number: u32,
) -> Result<(), AllocError>
    ensures { OnOk result
        (lines.new.items ≡ lines.old.items ++ 32 ∷ name.now ++ 32 ∷ decimal number) }
{
    push_word(lines, name)?;
    push_number(lines, u64::from(number))
}
