//! Value texts: reading the bits of an input value, and writing those of an output value.

ghost use Rattle.std.specs.Prelude.{◌≡◌, ◌^◌, ◌⊎◌, ◌<◌, ◌≤◌, ◌++◌, ℕ, Bool, List, length, map, IfOk, IfErr, OnOk, IsFalse};
ghost use Rattle.gc_circuit.specs.Value.{Binary, Hexadecimal, form_of, has_length, value_of_form, value_of_text, low_bits, binary_digit, code_of, ValueTextLaw};
ghost use Rattle.gc_netlist.specs.Names.{fault_name};

use crate::hexadecimal::byte_of;
use crate::memory::Memory;
use gc_netlist::fault_name;
use std::alloc::{AllocError, AllocFailed, Allocator};
use std::error::Error;
use std::fmt;

/// Why a text is not a value of the width asked for.
#[derive(Clone, Copy, Debug, PartialEq, Eq)]
pub enum ValueFault {
    /// Memory ran out.
    Memory,
    /// A character is no digit of the text's form.
    BadDigit,
    /// There are not as many digits as the width needs.
    WrongLength,
    /// A bit that no wire uses is 1.
    SpareBits,
}

impl ValueFault {
    /// The fault's number.
    pub fn code(self) -> u32
        ensures { result ≡ code_of self }
    {
        match self {
            ValueFault::Memory => 13,
            ValueFault::BadDigit => 15,
            ValueFault::WrongLength => 16,
            ValueFault::SpareBits => 17,
        }
    }

    /// The fault's name.
    pub fn name(self) -> &'static str
        ensures { result.now ≡ fault_name (code_of self) }
    {
        fault_name(self.code())
    }
}

/// Writes the name.
impl fmt::Display for ValueFault {
    ghost use Rattle.std.specs.Prelude.{Some};

    ghost output = { λ fault. Some (fault_name (code_of fault)) };

    fn fmt<W: fmt::Write>(&self, f: &mut fmt::Formatter<W>) -> fmt::Result {
        f.write_str(self.name())
    }
}

impl Error for ValueFault {}

impl From<AllocError> for ValueFault {
    ghost use Rattle.std.specs.Prelude.{◌≡◌};
    ghost use Rattle.gc_circuit.specs.declared.value.ValueFault.TheVariants as faults;

    ghost from_gives = { λ _ e. e ≡ faults.Memory };

    fn from(_e: AllocError) -> ValueFault {
        ValueFault::Memory
    }
}

impl<T: Drop> From<AllocFailed<T>> for ValueFault {
    ghost use Rattle.std.specs.Prelude.{◌≡◌};
    ghost use Rattle.gc_circuit.specs.declared.value.ValueFault.TheVariants as faults;

    ghost from_gives = { λ _ e. e ≡ faults.Memory };

    fn from(_e: AllocFailed<T>) -> ValueFault {
        ValueFault::Memory
    }
}

/// The bits of a value of `width` wires, in wire order, from a text of one of two forms:
///
/// - `width` characters `0` or `1`, in wire order;
/// - `x`, and then the hexadecimal digits, in either case, of as few bytes as hold `width` bits. Wire i is bit
///   i mod 8, where bit 0 is the lowest, of byte i / 8, and the bits that no wire uses are 0.
///
/// A text whose first byte is `x` has the second form. `WrongLength` comes before `BadDigit`, and that before
/// `SpareBits`; `Memory` comes only where an allocation was refused, and then in place of any result but `WrongLength`.
pub fn read_value<A: Allocator + Copy>(
    alloc: A,
    text: &[u8],
    width: u32,
) -> Result<Vec<bool, A>, ValueFault>
    ensures ok { IfOk result (λ v. value_of_text text.now width ≡ Ok v.items) }
    ensures err { IfErr result (λ fault.
        (fault ≡ ValueFault.Memory) ⊎ (value_of_text text.now width ≡ Err fault)) }

    // The length is checked before memory is taken.
    ensures length_first { IsFalse (has_length width (form_of text.now)) →
        result ≡ Err ValueFault.WrongLength }
{
    match text {
        [b'x', digits @ ..] => read_hexadecimal(alloc, digits, width as usize),
        digits => read_binary(alloc, digits, width as usize),
    }
}

/// The text of these bits: a character `0` or `1` for each, in order.
pub fn show_value<A: Allocator + Copy>(alloc: A, bits: &[bool]) -> Result<Vec<u8, A>, Memory>
    ensures { IfOk result (λ text. text.items ≡ map binary_digit bits.now) }
{
    let mut text = Vec::with_capacity(alloc, bits.len())?;
    for bit in bits {
        text.push(if *bit { b'1' } else { b'0' })?;
    }
    Ok(text)
}

/// The law of value texts. Reading a text gives bits exactly where it is the value with these bits, and a fault exactly
/// where that is its first. What `show_value` writes is read back as the bits shown.
#[tactic(auto, using(crate::proofs::ValueLemmas::value_text_law, crate::proofs::ValueLemmas::shown_is_read))]
pub fn law_value_texts()
    ensures meaning { (text : List ℕ) (n : ℕ) → ValueTextLaw text n }
    ensures round_trip { (bits : List Bool) →
        value_of_text (map binary_digit bits) (length bits) ≡ Ok bits }
{}

/// The first form, which has a character for each wire.
#[tactic(auto, using(std::proofs::lemmas::Grind::common_steps, std::proofs::lemmas::List::Folds::list_all_more, crate::proofs::ValueLemmas::range_more, crate::proofs::ValueLemmas::binary_ok))]
fn read_binary<A: Allocator + Copy>(
    alloc: A,
    digits: &[u8],
    width: usize,
) -> Result<Vec<bool, A>, ValueFault>
    ensures ok { IfOk result (λ v. value_of_form (Binary digits.now) width ≡ Ok v.items) }
    ensures err { IfErr result (λ fault.
        (fault ≡ ValueFault.Memory) ⊎ (value_of_form (Binary digits.now) width ≡ Err fault)) }
    ensures length_first { IsFalse (has_length width (Binary digits.now)) →
        result ≡ Err ValueFault.WrongLength }
{
    if digits.len() != width {
        return Err(ValueFault::WrongLength);
    }
    let mut bits = Vec::with_capacity(alloc, width)?;
    let mut are_digits = true;
    for digit in digits {
        are_digits &= (*digit == b'0') | (*digit == b'1');
        bits.push(*digit == b'1')?;
    }
    if are_digits {
        Ok(bits)
    } else {
        Err(ValueFault::BadDigit)
    }
}

/// The second form, from its digits.
#[tactic(auto, using(std::proofs::lemmas::Grind::common_steps, crate::proofs::ValueLemmas::hexadecimal_bad))]
fn read_hexadecimal<A: Allocator + Copy>(
    alloc: A,
    digits: &[u8],
    width: usize,
) -> Result<Vec<bool, A>, ValueFault>
    requires { width < 2 ^ 32 }
    ensures ok { IfOk result (λ v. value_of_form (Hexadecimal digits.now) width ≡ Ok v.items) }
    ensures err { IfErr result (λ fault.
        (fault ≡ ValueFault.Memory) ⊎ (value_of_form (Hexadecimal digits.now) width ≡ Err fault)) }
    ensures length_first { IsFalse (has_length width (Hexadecimal digits.now)) →
        result ≡ Err ValueFault.WrongLength }
{
    let byte_count = width.div_ceil(8);
    if digits.len() != 2 * byte_count {
        return Err(ValueFault::WrongLength);
    }
    let mut bits = Vec::with_capacity(alloc, width)?;
    let (mut are_digits, mut has_spare_bit) = (true, false);
    for k in 0..byte_count {
        let (byte, is_byte) = byte_of(digits[2 * k], digits[2 * k + 1]);
        let used = (width - 8 * k).min(8);
        are_digits &= is_byte;

        // Only the last byte has bits that no wire uses.
        has_spare_bit |= u32::from(byte) >> used != 0;
        push_bits(&mut bits, byte, used)?;
    }
    if !are_digits {
        Err(ValueFault::BadDigit)
    } else if has_spare_bit {
        Err(ValueFault::SpareBits)
    } else {
        Ok(bits)
    }
}

/// Adds the lowest `count` bits of a byte, the lowest first.
#[tactic(auto, using(std::proofs::lemmas::Grind::common_steps, crate::proofs::ValueLemmas::range_more, std::proofs::lemmas::Nat::Bits::shr_and_one))]
fn push_bits<A: Allocator>(
    bits: &mut Vec<bool, A>,
    byte: u8,
    count: usize,
) -> Result<(), ValueFault>
    requires { count ≤ 8 }
    ensures ok { OnOk result (bits.new.items ≡ bits.old.items ++ low_bits byte count) }
    ensures err { IfErr result (λ fault. fault ≡ ValueFault.Memory) }
{
    for i in 0..count {
        bits.push((byte >> i) & 1 == 1)?;
    }
    Ok(())
}
