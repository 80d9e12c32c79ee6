//! Digits read many at a time: one vector tells where they are, and one word holds those of a number.

ghost use Rattle.std.specs.Prelude.{◌≡◌, ℕ, ◌<◌, ◌≤◌, length, take, true, slice_index};
ghost use Rattle.std.specs.Int.{bit_at, from_le_bytes, w64};
ghost use Rattle.gc_netlist.specs.Text.{is_digit, value_of};

use std::simd::prelude::*;

/// The number of bytes in which digits are sought at once.
pub(crate) const BLOCK: usize = 32;

/// The most digits of a number that is read at once.
pub(crate) const MOST_DIGITS: usize = 8;

/// The bytes that are no digits, as bits: bit i of the result is 0 only where byte i is a digit.
#[inline(always)]
pub(crate) fn stop_bits(text: &[u8]) -> u64
    requires { 32 ≤ length text.now }
    ensures { (i : ℕ) → i < 64 → bit_at result i ≡ 0 → is_digit (slice_index text.now i) ≡ true }
{
    // Digits are the ten bytes from b'0' on, and other bytes wrap to no less than 10.
    let above_zero = u8x32::from_slice(&text[..BLOCK]) - u8x32::splat(b'0');
    !above_zero.simd_lt(u8x32::splat(10)).to_bitmask()
}

/// The first eight bytes as one word, the first of them the lowest. They are loaded as a vector, since the compiler may
/// load each term of a sum by itself.
#[inline(always)]
fn word_at(text: &[u8]) -> u64
    requires { 8 ≤ length text.now }
    ensures { result ≡ from_le_bytes w64 text.now }
{
    let [word] = u64x1::from_le_bytes(u8x8::from_slice(&text[..8])).to_array();
    word
}

/// The value of the first `len` bytes, which are digits. The bytes after them don't matter.
#[inline(always)]
pub(crate) fn digits_value(text: &[u8], len: usize) -> u32
    requires room { 8 ≤ length text.now }
    requires some { 0 < len }
    requires few { len ≤ 8 }
    requires digits { (i : ℕ) → i < len → is_digit (slice_index text.now i) ≡ true }
    ensures { result ≡ value_of (take len text.now) }
{
    let word = word_at(text);
    // Each digit in a byte of its own, the last in the highest byte, and zeros below the first.
    let ones = word.wrapping_sub(0x3030_3030_3030_3030) << (64 - 8 * len);
    // Neighbours are joined: digits to pairs, pairs to fours, and fours to the value.
    let pairs = (ones * 10 + (ones >> 8)) & 0x00ff_00ff_00ff_00ff;
    let fours = (pairs * 100 + (pairs >> 16)) & 0x0000_ffff_0000_ffff;
    ((fours * 10_000 + (fours >> 32)) % 0x1_0000_0000) as u32
}
