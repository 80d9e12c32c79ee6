//! Hints on texts of other formats.

ghost use Rattle.std.specs.Prelude.{◌≤◌, length, IfSome};

use crate::format::Format;
use std::str;

/// What a text with a fault on this line seems to be, and what makes a circuit of it, if that is known.
pub(crate) fn hint_of(text: &[u8], line: u64) -> Option<&'static str>
    ensures { IfSome result (λ hint. length hint.now ≤ 120) }
{
    match Format::of(text) {
        Some(format) => Some(format.hint()),
        None => hint_of_line(line_at(text, line)),
    }
}

/// What a line seems to have that no circuit has.
fn hint_of_line(line: &[u8]) -> Option<&'static str>
    ensures { IfSome result (λ hint. length hint.now ≤ 120) }
{
    let line = str::from_utf8(line).ok()?;
    if line.contains('#') || line.contains("//") {
        return Some("a circuit has no comments");
    }
    match line.split_whitespace().last()? {
        "MAND" => Some(
            "MAND of 2n wires is n AND gates, of its wires i and n + i: halfgates-convert \
             (python3 -m halfgates.convert) writes them",
        ),
        "NOT" | "OR" | "NAND" | "NOR" | "XNOR" => Some(
            "halfgates-convert (python3 -m halfgates.convert) writes NOT, OR, NAND, NOR and XNOR \
             by AND, XOR and INV",
        ),
        _ => None,
    }
}

/// The line of this number, counted from 1.
fn line_at(text: &[u8], number: u64) -> &[u8] {
    let mut at = 1u64;
    for line in text.split(|byte| *byte == b'\n') {
        if at == number {
            return line;
        }
        at = at.saturating_add(1);
    }
    &[]
}
