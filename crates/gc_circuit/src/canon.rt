//! The canonical text of a circuit.

ghost use Rattle.std.specs.Prelude.{◌≡◌, ◌+◌, ◌<◌, ◌≤◌, ℕ, List, [], length, map, flat_map, take, drop, OnOk, IfOk};
ghost use Rattle.gc_netlist.specs.Spelling.{words_of_gate};
ghost use Rattle.gc_netlist.specs.Canon.{line, canonical_text};
ghost use Rattle.gc_circuit.specs.FirstLines.{first_lines};

use crate::canonical_lines::{
    EMPTY_ROOM, LONGEST, ROOM, Room, sizes_line, write_gate, write_widths,
};
use crate::circuit::Circuit;
use crate::memory::Memory;
use crate::text_sink::TextSink;
use std::alloc::Allocator;

/// The number of gates whose lines are given to a sink at once.
const GATES_AT_ONCE: u32 = 99;

// The room holds this many of the longest lines.
const _: () = prove!(GATES_AT_ONCE as usize * LONGEST <= ROOM);

impl<A: Allocator> Circuit<A> {
    /// The lines of the gates from place `from` up to place `to`.
    #[tactic(auto, using(std::proofs::lemmas::Grind::common_steps, crate::proofs::CanonLines::lines_from))]
    fn gate_lines<'a>(&self, room: &'a mut Room, from: u32, to: u32) -> &'a [u8]
        requires { (from ≤ to) × (to ≤ from + GATES_AT_ONCE) × (to ≤ length self.now.gates) }
        ensures { result.now
            ≡ flat_map line (map words_of_gate (drop from (take to self.now.gates))) }
    {
        let mut start = ROOM;
        for i in (from..to).rev() {
            start = write_gate(room, start, self.gate(i));
        }
        &room[start..]
    }

    /// Gives the lines before those of the gates to a sink that has taken nothing.
    #[tactic(auto, using(crate::proofs::CanonLines::header_lines))]
    fn write_header<S: TextSink>(&self, sink: &mut S, room: &mut Room) -> Result<(), S::Fault>
        ensures { OnOk result ((whole : List ℕ) → S.holds sink.old whole []
            → S.holds sink.new whole (first_lines self.now 0)) }
    {
        sink.put(sizes_line(room, self.gates(), self.wires()))?;
        write_widths(sink, self.input_widths())?;
        write_widths(sink, self.output_widths())?;
        sink.put(b"\n")
    }

    /// Gives the next lines to a sink that has taken those of `done` gates. Returns how many gates' lines it has then.
    #[tactic(auto, using(crate::proofs::CanonLines::next_lines))]
    fn write_next<S: TextSink>(
        &self,
        sink: &mut S,
        room: &mut Room,
        done: u32,
    ) -> Result<u32, S::Fault>
        requires { done < length self.now.gates }
        ensures next { IfOk result (λ next. (done < next) × (next ≤ length self.now.gates)) }
        ensures written { IfOk result (λ next. (whole : List ℕ)
            → S.holds sink.old whole (first_lines self.now done)
            → S.holds sink.new whole (first_lines self.now next)) }
    {
        let gates = self.gates();
        let next = (done + GATES_AT_ONCE).min(gates);
        sink.put(self.gate_lines(room, done, next))?;
        Ok(next)
    }

    /// Gives the canonical text of the circuit to a sink that has taken nothing.
    #[tactic(auto, using(crate::proofs::CanonLines::all_lines))]
    pub(crate) fn write_canonical<S: TextSink>(&self, sink: &mut S) -> Result<(), S::Fault>
        ensures { OnOk result ((whole : List ℕ) → S.holds sink.old whole []
            → S.holds sink.new whole (canonical_text self.now)) }
    {
        let mut room = EMPTY_ROOM;
        self.write_header(sink, &mut room)?;
        let mut done = 0;
        while done < self.gates() {
            done = self.write_next(sink, &mut room, done)?;
        }
        Ok(())
    }

    /// The canonical text of the circuit: the line of its numbers of gates and wires, the line of its input
    /// widths, the line of its output widths, an empty line, and a line for each gate.
    ///
    /// Numbers have no leading zeros, one space is between two words, and each line ends with a line feed.
    pub fn canon<B: Allocator + Copy>(&self, alloc: B) -> Result<Vec<u8, B>, Memory>
        ensures { IfOk result (λ text. text.items ≡ canonical_text self.now) }
    {
        let mut text = Vec::new(alloc);
        self.write_canonical(&mut text)?;
        Ok(text)
    }
}
