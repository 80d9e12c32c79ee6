//! The texts of output values.

ghost use Rattle.std.specs.Prelude.{◌≡◌, ◌≤◌, ◌++◌, ◌∷◌, [], Bool, List, length, map, Ok, OnOk};
ghost use Rattle.hex.specs.Hex.{encode_lower};
ghost use Rattle.gc_circuit.specs.Value.{binary_digit, value_of_text};
ghost use Rattle.gc_file.specs.DecodeBits.{bits_number};
ghost use Rattle.gc_command.specs.Lines.{form_by_flag, value_text};
ghost use Rattle.gc_command.specs.declared.value_form.ValueForm.TheVariants.{Hexadecimal};

use std::alloc::{AllocError, Allocator};

/// How an output value is written. In either form the text is read as the value that it was written for.
#[derive(Clone, Copy, Debug, PartialEq, Eq)]
pub enum ValueForm {
    /// A character `0` or `1` for each wire, in wire order.
    Binary,
    /// `x`, and two lower-case hexadecimal digits for each eight wires begun, of which the first wire is the lowest
    /// bit. Bits that no wire uses are 0.
    Hexadecimal,
}

impl ValueForm {
    /// The form that a command with or without the flag `--hex` writes.
    pub fn by_flag(hex: bool) -> ValueForm
        ensures { result ≡ form_by_flag hex }
    {
        if hex {
            ValueForm::Hexadecimal
        } else {
            ValueForm::Binary
        }
    }

    /// Room for the lines of this many values that together have this many bits. Only how often memory is allocated
    /// depends on it.
    pub fn room(self, values: usize, bits: usize) -> usize {
        match self {
            ValueForm::Binary => bits.saturating_add(values),
            ValueForm::Hexadecimal => values.saturating_mul(4).saturating_add(bits / 4),
        }
    }
}

/// The law of output values. In either form the text of a value is read as its bits.
pub fn law_output_values()
    ensures { (form : ValueForm) (bits : List Bool) →
        value_of_text (value_text form bits) (length bits) ≡ Ok bits }
{}

/// Adds the text of a value with these bits.
pub(crate) fn push_value<A: Allocator>(
    line: &mut Vec<u8, A>,
    form: ValueForm,
    bits: &[bool],
) -> Result<(), AllocError>
    ensures { OnOk result (line.new.items ≡ line.old.items ++ value_text form bits.now) }
{
    match form {
        ValueForm::Binary => push_digits(line, bits),
        ValueForm::Hexadecimal => push_hexadecimal(line, bits),
    }
}

/// Adds a character `0` or `1` for each bit.
pub fn push_digits<A: Allocator>(line: &mut Vec<u8, A>, bits: &[bool]) -> Result<(), AllocError>
    ensures { OnOk result (line.new.items ≡ line.old.items ++ map binary_digit bits.now) }
{
    for bit in bits {
        line.push(if *bit { b'1' } else { b'0' })?;
    }
    Ok(())
}

/// Adds `x` and the hexadecimal digits of these bits, eight to a byte.
fn push_hexadecimal<A: Allocator>(line: &mut Vec<u8, A>, bits: &[bool]) -> Result<(), AllocError>
    ensures { OnOk result
        (line.new.items ≡ line.old.items ++ value_text Hexadecimal bits.now) }
{
    line.push(b'x')?;
    let mut left = bits;
    while !left.is_empty() {
        let (byte, others) = left.split_at(left.len().min(8));
        push_byte(line, packed_byte(byte))?;
        left = others;
    }
    Ok(())
}

/// Adds the two hexadecimal digits of a byte.
fn push_byte<A: Allocator>(line: &mut Vec<u8, A>, byte: u8) -> Result<(), AllocError>
    ensures { OnOk result (line.new.items ≡ line.old.items ++ encode_lower (byte ∷ [])) }
{
    let mut digits = [0; 2];
    hex::encode_to_slice([byte], &mut digits).unwrap();
    line.extend_from_slice(&digits)
}

/// The byte with these bits, the first of them lowest, of which there are at most eight.
fn packed_byte(bits: &[bool]) -> u8
    requires { length bits.now ≤ 8 }
    ensures { result ≡ bits_number bits.now }
{
    match bits {
        [] => 0,
        [bit, others @ ..] => u8::from(*bit) + 2 * packed_byte(others),
    }
}
