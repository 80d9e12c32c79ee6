ghost use Rattle.std.specs.Prelude.{◌≡◌, ℕ, ◌+◌, ◌<◌, ◌≤◌, List, length, take, drop, true, slice_index, if◌then◌else◌, IfSome, IsTrue, Ok, codes};
ghost use Rattle.std.specs.Int.{bit_at};
ghost use Rattle.gc_netlist.specs.Text.{tokens, is_blank, is_digit};
ghost use Rattle.gc_netlist.specs.Reading.{operation_of_two, token_at, number_at, gate_at};
ghost use Rattle.gc_tokens.specs.Cursor.{KeepsCuts};

use crate::digits::{BLOCK, MOST_DIGITS, digits_value, stop_bits};
use gc_netlist::{Gate, Operation};

/// The text after a line feed, where it begins with one, as it does after a gate that was read by tokens.
#[inline(always)]
pub(crate) fn behind_feed(text: &[u8]) -> &[u8]
    ensures same { tokens result.now ≡ tokens text.now }
    ensures cuts { KeepsCuts text.now result.now }
{
    let [first, rest @ ..] = text else {
        return text;
    };
    if *first == b'\n' { rest } else { text }
}

/// Whether four bytes are the same as four others: one comparison of words, so that there is one branch.
#[inline(always)]
fn same_four(bytes: [u8; 4], others: [u8; 4]) -> bool
    ensures { IsTrue result → bytes ≡ others }
{
    u32::from_le_bytes(bytes) == u32::from_le_bytes(others)
}

/// Whether the text begins with the numbers 2 and 1 and a space after each.
#[inline(always)]
fn begins_with_two_and_one(text: &[u8]) -> bool
    ensures { IsTrue result → (4 ≤ length text.now) × (take 4 text.now ≡ codes "2 1 ") }
{
    let [two, after_two, one, after_one, ..] = text else {
        return false;
    };
    same_four([*two, *after_two, *one, *after_one], *b"2 1 ")
}

/// The number that starts at `start`, where it has few digits and a space follows it, the place after that space, and
/// the stops from there on. The stops are the bits of the bytes that are no digits, so that the lowest is the number's
/// end. To clear it takes less time than to shift them past it.
#[inline(always)]
fn number_and_space(line: &[u8], start: usize, stops: u64) -> Option<(u32, usize, u64)>
    requires room { start + 9 ≤ length line.now }
    requires near { start ≤ 32 }
    requires digits { (i : ℕ) → start ≤ i → i < 64 → bit_at stops i ≡ 0
        → is_digit (slice_index line.now i) ≡ true }
    ensures { IfSome result (λ r. (r.1 ≤ start + 9)
        × (number_at (tokens (drop start line.now)) ≡ Ok (r.0, tokens (drop r.1 line.now)))
        × KeepsCuts (drop start line.now) (drop r.1 line.now)
        × ((i : ℕ) → r.1 ≤ i → i < 64 → bit_at r.2 i ≡ 0
        → is_digit (slice_index line.now i) ≡ true)) }
{
    let end = stops.trailing_zeros() as usize;
    // The digits after the first. Where there is none at all, this wraps to a large number: one comparison finds both.
    let more = end.wrapping_sub(start + 1);
    if more >= MOST_DIGITS || line[end] != b' ' {
        return None;
    }
    let value = digits_value(&line[start..], more + 1);
    Some((value, end + 1, stops & stops.wrapping_sub(1)))
}

/// The name AND or XOR, and a line feed.
#[inline(always)]
fn name_and_feed(is_and: bool) -> [u8; 4]
    ensures { result ≡ (if is_and then codes "AND\n" else codes "XOR\n") }
{
    if is_and { *b"AND\n" } else { *b"XOR\n" }
}

/// The operation that the text begins with, XOR or AND, and the text after the line feed that follows it. No branch
/// depends on which of the two it is, since no processor predicts that.
#[inline(always)]
fn operation_and_feed(text: &[u8], a: u32, b: u32) -> Option<(Operation, &[u8])>
    ensures { IfSome result (λ r. (name : List ℕ)
        × (token_at (tokens text.now) ≡ Ok (name, tokens r.1.now))
        × (operation_of_two name a b ≡ Ok r.0) × KeepsCuts text.now r.1.now) }
{
    let [x, y, z, feed, rest @ ..] = text else {
        return None;
    };
    let is_and = *x == b'A';
    if !same_four([*x, *y, *z, *feed], name_and_feed(is_and)) {
        return None;
    }
    let operation = if is_and {
        Operation::And(a, b)
    } else {
        Operation::Xor(a, b)
    };
    Some((operation, rest))
}

/// The gate that the text begins with, and the text after its line, where the line is spelled as nearly all are: `2 1`,
/// three numbers of few digits and XOR or AND, with a space after each number and a line feed at the end. No branch
/// depends on how many digits there are.
#[inline(always)]
pub(crate) fn common_gate(text: &[u8]) -> Option<(Gate, &[u8])>
    ensures { IfSome result (λ r. (gate_at (tokens text.now) ≡ Ok (r.0, tokens r.1.now))
        × KeepsCuts text.now r.1.now) }
{
    if text.len() < 4 + BLOCK || !begins_with_two_and_one(text) {
        return None;
    }
    let line = &text[4..];
    let (a, start, stops) = number_and_space(line, 0, stop_bits(line))?;
    let (b, start, stops) = number_and_space(line, start, stops)?;
    let (set, start, _) = number_and_space(line, start, stops)?;
    let (operation, rest) = operation_and_feed(&line[start..], a, b)?;
    Some((Gate { operation, set }, rest))
}
