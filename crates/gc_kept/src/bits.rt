//! Bits as bytes.

ghost use Rattle.std.specs.Prelude.{◌≡◌, ◌≤◌, length, map, IfOk, IfErr};
ghost use Rattle.gc_netlist.specs.Spelling.{bit_number};
ghost use Rattle.gc_kept.specs.Bits.{HasBitsFault};
ghost use Rattle.gc_kept.specs.Files.{IsFileAt};

use crate::fault::KeptFault;
use gc_circuit::ReadFault;
use std::alloc::Global;

/// The byte of a bit.
pub(crate) fn bit_byte(bit: bool) -> u8
    ensures { result ≡ bit_number bit }
{
    u8::from(bit)
}

/// Writes the byte of each bit. The caller ensures that there is one for each.
fn put_bits(bits: &[bool], bytes: &mut [u8])
    requires { length bytes.old ≡ length bits.now }
    ensures { bytes.new ≡ map bit_number bits.now }
{
    for (i, byte) in bytes.iter_mut().enumerate() {
        *byte = bit_byte(bits[i]);
    }
}

/// Writes the byte of each bit to the front of a buffer, whose end stays as it is. The caller ensures that there is
/// room.
pub fn write_bits(bits: &[bool], buffer: &mut [u8])
    requires { length bits.now ≤ length buffer.old }
    ensures { IsFileAt (map bit_number bits.now) buffer.old buffer.new }
{
    put_bits(bits, &mut buffer[..bits.len()]);
}

/// The bits of these bytes, where there are `count` of them and each is 0 or 1. All of them are read before that is
/// decided, and no branch and no address depends on one.
pub(crate) fn read_bits(
    alloc: Global,
    bytes: &[u8],
    count: usize,
) -> Result<Vec<bool, Global>, KeptFault>
    ensures count { IfOk result (λ bits. length bits.items ≡ count) }
    ensures bytes { IfOk result (λ bits. bytes.now ≡ map bit_number bits.items) }
    ensures fault { IfErr result (HasBitsFault bytes.now count) }
{
    if bytes.len() != count {
        return Err(KeptFault::WrongLength);
    }
    let Ok(mut bits) = Vec::with_capacity(alloc, count) else {
        return Err(KeptFault::Circuit(ReadFault::Memory));
    };
    let mut are_bits = true;
    for byte in bytes {
        are_bits &= *byte < 2;
        if bits.push(*byte == 1).is_err() {
            return Err(KeptFault::Circuit(ReadFault::Memory));
        }
    }
    if are_bits {
        Ok(bits)
    } else {
        Err(KeptFault::BadDigit)
    }
}
