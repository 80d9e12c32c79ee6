ghost use Rattle.std.specs.Prelude.{◌≡◌, ◌<◌, ◌≤◌, length, drop, true, false, slice_index, IfSome, MatchResult, Ok, Err};
ghost use Rattle.gc_netlist.specs.Text.{tokens, is_blank};
ghost use Rattle.gc_netlist.specs.Reading.{number_at};

use gc_netlist::ReadFault;

/// Whether the byte is between tokens: a tab, a line feed, a carriage return or a space. Nearly all other bytes are
/// above a space, so that one comparison suffices for them.
#[inline]
pub fn is_blank(byte: u8) -> bool
    ensures { result ≡ is_blank byte }
{
    byte <= b' ' && matches!(byte, b'\t' | b'\n' | b'\r' | b' ')
}

/// The number of bytes in which a short number and the blank after it are sought.
const SHORT: usize = 9;

/// The number that the text begins with, and how many bytes it takes, where it is short and a blank follows it. The
/// loop has few turns, so that the compiler unrolls it, and no value is too large.
#[tactic(auto, using(crate::proofs::NumberLemmas::value_none, crate::proofs::NumberLemmas::digit_most))]
#[inline(always)]
pub(crate) fn short_number(text: &[u8]) -> Option<(u32, usize)>
    ensures { IfSome result (λ r. (r.1 < length text.now)
        × (number_at (tokens text.now) ≡ Ok (r.0, tokens (drop r.1 text.now)))
        × (is_blank (slice_index text.now r.1) ≡ true)) }
{
    if text.len() < SHORT {
        return None;
    }
    let mut value = 0u32;
    for i in 0..SHORT {
        let byte = text[i];
        if !byte.is_ascii_digit() {
            return if i > 0 && is_blank(byte) {
                Some((value, i))
            } else {
                None
            };
        }
        value = value * 10 + u32::from(byte - b'0');
    }
    None
}

/// The number that the text begins with, and how many bytes it takes. Leading zeros are accepted. Few numbers are read
/// here: the others don't pay for it.
#[tactic(auto, using(std::proofs::lemmas::Bool::Decides::nat_tests, crate::proofs::NumberLemmas::value_none, crate::proofs::NumberLemmas::value_more, crate::proofs::NumberLemmas::digits_more, crate::proofs::TokenLemmas::tokens_empty))]
#[inline(never)]
pub(crate) fn leading_number(text: &[u8]) -> Result<(u32, usize), ReadFault>
    requires { 0 < length text.now → is_blank (slice_index text.now 0) ≡ false }
    ensures { MatchResult result (λ r. (r.1 ≤ length text.now)
        × (number_at (tokens text.now) ≡ Ok (r.0, tokens (drop r.1 text.now)))
        × (r.1 < length text.now → is_blank (slice_index text.now r.1) ≡ true))
        (λ e. number_at (tokens text.now) ≡ Err e) }
{
    let mut value = 0u64;
    for (i, byte) in text.iter().enumerate() {
        if !byte.is_ascii_digit() {
            return if is_blank(*byte) {
                Ok((value as u32, i))
            } else {
                Err(ReadFault::BadNumber)
            };
        }
        value = value * 10 + u64::from(*byte - b'0');
        if value > u64::from(u32::MAX) {
            return Err(ReadFault::BadNumber);
        }
    }
    if text.is_empty() {
        return Err(ReadFault::Truncated);
    }
    Ok((value as u32, text.len()))
}
