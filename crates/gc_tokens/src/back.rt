//! Going back in a text: where tokens and lines begin.

ghost use Rattle.std.specs.Prelude.{◌≡◌, ◌<◌, ◌≤◌, ◌-◌, ◌==◌, length, take, drop, count_by, true, false, slice_index, All};
ghost use Rattle.gc_netlist.specs.Text.{tokens, is_blank};
ghost use Rattle.gc_netlist.specs.Place.{line_after, column_after};

use crate::number::is_blank;

/// The number of bytes up to the last that is no blank.
#[tactic(auto, using(crate::proofs::BackLemmas::blank_less))]
pub(crate) fn last_end(text: &[u8]) -> usize
    ensures within { result ≤ length text.now }
    ensures same { tokens (take result text.now) ≡ tokens text.now }
    ensures ends { 0 < result → is_blank (slice_index text.now (result - 1)) ≡ false }
{
    let mut end = text.len();
    while end > 0 {
        if !is_blank(text[end - 1]) {
            return end;
        }
        end -= 1;
    }
    0
}

/// The number of bytes before the run of bytes at the end that are no blanks.
fn run_start(text: &[u8]) -> usize
    ensures within { result ≤ length text.now }
    ensures run { All (λ b. is_blank b ≡ false) (drop result text.now) }
    ensures ends { 0 < result → is_blank (slice_index text.now (result - 1)) ≡ true }
{
    let mut start = text.len();
    while start > 0 {
        if is_blank(text[start - 1]) {
            return start;
        }
        start -= 1;
    }
    0
}

/// Where the last token begins. The caller ensures that there is one.
fn last_start(text: &[u8]) -> usize
    requires { 0 < length (tokens text.now) }
    ensures within { result < length text.now }
    ensures front { tokens (take result text.now)
        ≡ take (length (tokens text.now) - 1) (tokens text.now) }
    ensures begins { is_blank (slice_index text.now result) ≡ false }
{
    let end = last_end(text);
    run_start(&text[..end])
}

/// Where the token begins from which there are `back` to the end. The caller ensures that there are as many.
pub(crate) fn start_back(text: &[u8], back: usize) -> usize
    requires some { 0 < back }
    requires fits { back ≤ length (tokens text.now) }
    ensures within { result < length text.now }
    ensures front { tokens (take result text.now)
        ≡ take (length (tokens text.now) - back) (tokens text.now) }
    ensures begins { is_blank (slice_index text.now result) ≡ false }
{
    let mut at = last_start(text);
    for _i in 1..back {
        at = last_start(&text[..at]);
    }
    at
}

/// The number of bytes whose line ends are counted in one byte, so that the compiler counts many at once.
const FEW: usize = 224;

/// How many of a few bytes end a line.
fn few_line_ends(text: &[u8]) -> u8
    requires { length text.now ≤ FEW }
    ensures { result ≡ count_by (λ b. b == 10) text.now }
{
    let mut ends = 0u8;
    for byte in text {
        ends += u8::from(*byte == b'\n');
    }
    ends
}

/// The line of what comes after these bytes, counted from 1. Byte 10 ends a line, and no other byte does.
pub fn line_after(before: &[u8]) -> u64
    ensures { result ≡ line_after before.now }
{
    let mut line = 1;
    let mut rest = before;
    while !rest.is_empty() {
        let (few, later) = rest.split_at(rest.len().min(FEW));
        line += u64::from(few_line_ends(few));
        rest = later;
    }
    line
}

/// The number of bytes up to the end of the last whole line.
fn line_start(text: &[u8]) -> usize
    ensures within { result ≤ length text.now }
    ensures run { All (λ b. (b == 10) ≡ false) (drop result text.now) }
    ensures ends { 0 < result → slice_index text.now (result - 1) ≡ 10 }
{
    let mut start = text.len();
    while start > 0 {
        if text[start - 1] == b'\n' {
            return start;
        }
        start -= 1;
    }
    0
}

/// The column of what comes after these bytes, counted from 1. Each byte takes a column, and after byte 10 the columns
/// begin anew.
#[tactic(auto, using(crate::proofs::BackLemmas::column_in_line))]
pub fn column_after(before: &[u8]) -> u64
    ensures { result ≡ column_after before.now }
{
    (before.len() - line_start(before)) as u64 + 1
}
