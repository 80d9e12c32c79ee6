//! Formats that aren't Bristol Fashion.

ghost use Rattle.std.specs.Prelude.{◌≤◌, length};

use std::str;

/// How many bytes of a text are looked at.
const HEAD: usize = 4_096;

/// What a text can be that isn't Bristol Fashion.
pub(crate) enum Format {
    MarkedUtf8,
    Utf16,
    Gzip,
    Garbled,
    Labels,
    Aiger,
    Blif,
    Json,
    Verilog,
    OldBristol,
}

impl Format {
    /// The format that a text seems to have, if it is known.
    pub(crate) fn of(text: &[u8]) -> Option<Format> {
        let head = &text[..text.len().min(HEAD)];
        Format::of_first_bytes(head).or_else(|| Format::of_lines(head))
    }

    /// The format by the first bytes.
    fn of_first_bytes(head: &[u8]) -> Option<Format> {
        match head {
            [0xef, 0xbb, 0xbf, ..] => Some(Format::MarkedUtf8),
            [0xff, 0xfe, ..] | [0xfe, 0xff, ..] => Some(Format::Utf16),
            [0, first, 0, second, ..] | [first, 0, second, 0, ..] if is_header(*first, *second) => {
                Some(Format::Utf16)
            }
            [0x1f, 0x8b, ..] => Some(Format::Gzip),
            [b'H', b'G', b'A', b'R', b'B', b'L', b'E', ..] => Some(Format::Garbled),
            [b'H', b'L', b'A', b'B', b'E', b'L', b'S', ..] => Some(Format::Labels),
            [b'a', b'a' | b'i', b'g', b' ', ..] => Some(Format::Aiger),
            [b'{', ..] => Some(Format::Json),
            _ => None,
        }
    }

    /// The format by the lines.
    fn of_lines(head: &[u8]) -> Option<Format> {
        for line in head.split(|byte| *byte == b'\n') {
            if line.starts_with(b".model") {
                return Some(Format::Blif);
            }
            if line.starts_with(b"module ") {
                return Some(Format::Verilog);
            }
        }
        if has_old_header(head) {
            return Some(Format::OldBristol);
        }
        None
    }

    /// What is said of a text of this format.
    pub(crate) fn hint(self) -> &'static str
        ensures { length result.now ≤ 120 }
    {
        match self {
            Format::MarkedUtf8 => "the file begins with a byte order mark, which no circuit has",
            Format::Utf16 => "the file is UTF-16, and a circuit is ASCII",
            Format::Gzip => "the file is compressed by gzip: unpack it first",
            Format::Garbled => "this is a garbled file, and no circuit",
            Format::Labels => "this is a label file, and no circuit",
            Format::Aiger => {
                "the file is AIGER: Yosys makes JSON of it, which halfgates-convert (python3 -m \
                 halfgates.convert) reads"
            }
            Format::Blif => {
                "the file is BLIF: Yosys makes JSON of it, which halfgates-convert (python3 -m \
                 halfgates.convert) reads"
            }
            Format::Json => {
                "the file is JSON: halfgates-convert (python3 -m halfgates.convert) reads a \
                 netlist that Yosys writes"
            }
            Format::Verilog => {
                "the file is Verilog: Yosys makes JSON of it, which halfgates-convert (python3 -m \
                 halfgates.convert) reads"
            }
            Format::OldBristol => {
                "the header is that of the old Bristol format, which halfgates-convert (python3 \
                 -m halfgates.convert) reads"
            }
        }
    }
}

/// Whether two characters can begin a circuit: digits, of which the second may be a blank.
fn is_header(first: u8, second: u8) -> bool {
    first.is_ascii_digit() && (second.is_ascii_digit() || second == b' ')
}

/// Whether the second line has as many words as the widths of two or three values, and the next one is a gate's.
fn has_old_header(head: &[u8]) -> bool {
    let Ok(head) = str::from_utf8(head) else {
        return false;
    };
    let mut lines = head.lines().filter(|line| !line.trim().is_empty());
    let (Some(_), Some(second), Some(third)) = (lines.next(), lines.next(), lines.next()) else {
        return false;
    };
    let count = second.split_whitespace().count();
    (count == 2 || count == 3)
        && third
            .split_whitespace()
            .last()
            .is_some_and(|word| matches!(word, "XOR" | "AND" | "INV" | "NOT"))
}
