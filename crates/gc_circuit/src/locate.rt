ghost use Rattle.std.specs.Prelude.{◌≡◌, ◌≢◌, ◌≤◌, length, IfOk, MatchOption};
ghost use Rattle.gc_netlist.specs.Circuit.{Netlist, IsLawful};
ghost use Rattle.gc_netlist.specs.Text.{tokens};
ghost use Rattle.gc_netlist.specs.Spelling.{Spells};
ghost use Rattle.gc_netlist.specs.Place.{place_of, IsSpot, IsLocated};
ghost use Rattle.gc_netlist.specs.Met.{IsMet};

use crate::circuit::Circuit;
use crate::memory::Memory;
use crate::stop::Stop;
use gc_netlist::ReadFault;
use gc_tokens::{Tokens, column_after, line_after};
use std::alloc::Allocator;

/// Where the first fault of a text is.
#[derive(Clone, Copy, Debug, PartialEq, Eq)]
pub struct Located {
    /// The fault.
    pub fault: ReadFault,
    /// The line, counted from 1. Byte 10 ends a line.
    pub line: u64,
    /// The column, counted from 1. A byte takes a column.
    pub column: u64,
    /// The gate, counted from 0, where the fault is found while a gate is read.
    pub gate: Option<u32>,
    /// The wire, where the fault is about one. Of the output wires that aren't set it is the lowest.
    pub wire: Option<u32>,
}

/// How many bytes come before the place at which reading stops.
fn offset_of(cursor: &mut Tokens<'_>, stop: Stop) -> usize
    requires { IsMet (tokens cursor.old.text) stop.fault cursor.old.left stop.back stop.gate
        stop.wire }
    ensures within { result ≤ length cursor.old.text }
    ensures spot { (m : IsMet (tokens cursor.old.text) stop.fault cursor.old.left stop.back
        stop.gate stop.wire) → IsSpot cursor.old.text (place_of m.first).spot result }
{
    match stop.fault {
        ReadFault::Truncated => cursor.text_len(),
        ReadFault::OutputUnset => cursor.end_before(),
        _ => cursor.start(stop.back),
    }
}

impl<A: Allocator + Copy> Circuit<A> {
    /// Where the first fault of a text is, or `None` exactly where `read` accepts the text. It reads as `read` does.
    /// The place is the token at fault; of counts the first; of a constant or a wire its number; of widths the last; of
    /// a text that is cut short its end; of an output wire the end of the last gate.
    pub fn locate(alloc: A, text: &[u8]) -> Result<Option<Located>, Memory>
        ensures { IfOk result (λ o. MatchOption o
            ((c : Netlist) × IsLawful c × Spells text.now c)
            (λ l. IsLocated text.now l.fault l.line l.column l.gate l.wire)) }
    {
        let mut tokens = Tokens::new(text);
        let stop = match Circuit::read_in_order(alloc, &mut tokens) {
            Ok(_circuit) => return Ok(None),
            Err(stop) => stop,
        };
        if stop.fault == ReadFault::Memory {
            return Err(Memory);
        }
        let before = &text[..offset_of(&mut tokens, stop)];
        Ok(Some(Located {
            fault: stop.fault,
            line: line_after(before),
            column: column_after(before),
            gate: stop.gate,
            wire: stop.wire,
        }))
    }
}
