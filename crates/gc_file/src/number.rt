//! Whole numbers in files.

ghost use Rattle.std.specs.Prelude.{◌≡◌, ◌+◌, ◌≤◌, length};
ghost use Rattle.gc_file.specs.Number as numbers;

use byteorder::{ByteOrder, LittleEndian};

/// The number in the four bytes from a place on, the lowest first. The caller ensures that there are four.
#[tactic(auto, unfolding(crate::specs::Number::u32_at))]
pub fn u32_at(place: usize, bytes: &[u8]) -> u32
    requires { place + 4 ≤ length bytes.now }
    ensures { result ≡ numbers.u32_at place bytes.now }
{
    LittleEndian::read_u32(&bytes[place..])
}

/// The four bytes of a number, the lowest first.
#[tactic(auto, unfolding(crate::specs::Number::number_bytes))]
pub fn number_bytes(number: u32) -> [u8; 4]
    ensures { result ≡ numbers.number_bytes number }
{
    let mut bytes = [0; 4];
    LittleEndian::write_u32(&mut bytes, number);
    bytes
}
