//! The lines of a canonical text, written from their ends.

ghost use Rattle.std.specs.Prelude.{◌≡◌, ◌+◌, ◌≤◌, ◌++◌, ℕ, List, [], ◌∷◌, true, false, codes, length, drop, decimal, OnOk};
ghost use Rattle.gc_netlist.specs.Spelling.{Number, Name, words_of_gate, words_of_widths};
ghost use Rattle.gc_netlist.specs.Canon.{line};

use crate::text_sink::TextSink;
use gc_netlist::{Gate, MAX_VALUES, Operation};
use itoa::write_digits;

/// How many bytes there is room for.
pub const ROOM: usize = 4_096;

/// The most bytes in the line of a gate.
pub const LONGEST: usize = 41;

/// Room for text. It is written from its end to its beginning, so that the digits of a number fall into place, and
/// ends where the room ends.
pub type Room = [u8; ROOM];

/// Room in which nothing is written.
pub const EMPTY_ROOM: Room = [0; ROOM];

/// Writes bytes before the place `end`, and returns where they start.
fn write_bytes(room: &mut Room, end: usize, bytes: &[u8]) -> usize
    requires { (length bytes.now ≤ end) × (end ≤ ROOM) }
    ensures written { drop result room.new ≡ bytes.now ++ drop end room.old }
    ensures start { result + length bytes.now ≡ end }
{
    let start = end - bytes.len();
    room[start..end].copy_from_slice(bytes);
    start
}

/// Writes the digits of a number before the place `end`, and returns where they start.
#[tactic(auto, using(crate::proofs::LineLemmas::short_decimal))]
fn write_decimal(room: &mut Room, end: usize, number: u32) -> usize
    requires { (10 ≤ end) × (end ≤ ROOM) }
    ensures written { drop result room.new ≡ decimal number ++ drop end room.old }
    ensures start { (result ≤ end) × (end ≤ result + 10) }
{
    write_digits(u64::from(number), room, end)
}

/// Writes a number and a space before the place `end`, and returns where they start.
fn write_number(room: &mut Room, end: usize, number: u32) -> usize
    requires { (11 ≤ end) × (end ≤ ROOM) }
    ensures written { drop result room.new ≡ decimal number ++ 32 ∷ drop end room.old }
    ensures start { (result ≤ end) × (end ≤ result + 11) }
{
    let space = write_bytes(room, end, b" ");
    write_decimal(room, space, number)
}

/// Writes a name and the end of its line before the place `end`, and returns where they start.
fn write_name(room: &mut Room, end: usize, name: &[u8]) -> usize
    requires { (length name.now + 1 ≤ end) × (end ≤ ROOM) }
    ensures written { drop result room.new ≡ name.now ++ 10 ∷ drop end room.old }
    ensures start { result + length name.now + 1 ≡ end }
{
    let line_end = write_bytes(room, end, b"\n");
    write_bytes(room, line_end, name)
}

/// Writes the wire that a gate sets, the gate's name and the end of its line before the place `end`, and returns where
/// they start.
#[inline(always)]
fn write_set(room: &mut Room, end: usize, set: u32, name: &[u8]) -> usize
    requires { (length name.now ≤ 3) × (15 ≤ end) × (end ≤ ROOM) }
    ensures written { drop result room.new
        ≡ decimal set ++ 32 ∷ (name.now ++ 10 ∷ drop end room.old) }
    ensures start { (result ≤ end) × (end ≤ result + 15) }
{
    let start = write_name(room, end, name);
    write_number(room, start, set)
}

/// Writes the counts of a gate that reads one number, and the number, a wire or a constant, before the place `end`.
/// Returns where they start.
fn write_one(room: &mut Room, end: usize, read: u32) -> usize
    requires { (15 ≤ end) × (end ≤ ROOM) }
    ensures written { drop result room.new
        ≡ 49 ∷ 32 ∷ 49 ∷ 32 ∷ (decimal read ++ 32 ∷ drop end room.old) }
    ensures start { (result ≤ end) × (end ≤ result + 15) }
{
    let start = write_number(room, end, read);
    write_bytes(room, start, b"1 1 ")
}

/// Writes the counts of a gate that reads two wires, and these wires, before the place `end`. Returns where they start.
#[inline(always)]
fn write_two(room: &mut Room, end: usize, first: u32, second: u32) -> usize
    requires { (26 ≤ end) × (end ≤ ROOM) }
    ensures written { drop result room.new
        ≡ 50 ∷ 32 ∷ 49 ∷ 32 ∷ (decimal first ++ 32 ∷ (decimal second ++ 32 ∷ drop end room.old)) }
    ensures start { (result ≤ end) × (end ≤ result + 26) }
{
    let start = write_number(room, end, second);
    let start = write_number(room, start, first);
    write_bytes(room, start, b"2 1 ")
}

/// The name of an AND gate or of an XOR gate. It is chosen without a branch, which no processor would predict.
fn name_of_two(is_and: bool) -> &'static [u8]
    ensures and { is_and ≡ true → result.now ≡ codes "AND" }
    ensures xor { is_and ≡ false → result.now ≡ codes "XOR" }
{
    if is_and { b"AND" } else { b"XOR" }
}

/// Writes the line of a gate before the place `end`, and returns where it starts.
#[tactic(auto, using(crate::proofs::LineLemmas::line_of_one, crate::proofs::LineLemmas::line_of_two))]
pub fn write_gate(room: &mut Room, end: usize, gate: Gate) -> usize
    requires { (LONGEST ≤ end) × (end ≤ ROOM) }
    ensures written { drop result room.new ≡ line (words_of_gate gate) ++ drop end room.old }
    ensures start { (result ≤ end) × (end ≤ result + LONGEST) }
{
    let set = gate.set;
    match gate.operation {
        Operation::Xor(a, b) | Operation::And(a, b) => {
            let start = write_set(room, end, set, name_of_two(gate.operation.is_and()));
            write_two(room, start, a, b)
        }
        Operation::Inv(a) => {
            let start = write_set(room, end, set, b"INV");
            write_one(room, start, a)
        }
        Operation::Eq(constant) => {
            let start = write_set(room, end, set, b"EQ");
            write_one(room, start, u32::from(constant))
        }
        Operation::Eqw(a) => {
            let start = write_set(room, end, set, b"EQW");
            write_one(room, start, a)
        }
    }
}

/// The line of the numbers of gates and wires.
pub fn sizes_line(room: &mut Room, gates: u32, wires: u32) -> &[u8]
    ensures { result.now ≡ line (Number gates ∷ Number wires ∷ []) }
{
    let end = write_bytes(room, ROOM, b"\n");
    let start = write_decimal(room, end, wires);
    let start = write_number(room, start, gates);
    &room[start..]
}

/// The digits of a number.
fn digits(room: &mut Room, number: u32) -> &[u8]
    ensures { result.now ≡ decimal number }
{
    let start = write_decimal(room, ROOM, number);
    &room[start..]
}

/// A space and the digits of a number.
fn spaced_digits(room: &mut Room, number: u32) -> &[u8]
    ensures { result.now ≡ 32 ∷ decimal number }
{
    let start = write_decimal(room, ROOM, number);
    let start = write_bytes(room, start, b" ");
    &room[start..]
}

/// Gives the line of a side's widths to the sink.
#[tactic(auto, using(crate::proofs::LineLemmas::widths_done))]
pub fn write_widths<S: TextSink>(sink: &mut S, widths: &[u32]) -> Result<(), S::Fault>
    requires { length widths.now ≤ MAX_VALUES }
    ensures { OnOk result ((whole text : List ℕ) → S.holds sink.old whole text
        → S.holds sink.new whole (text ++ line (words_of_widths widths.now))) }
{
    let mut room = EMPTY_ROOM;
    sink.put(digits(&mut room, widths.len() as u32))?;
    for width in widths {
        sink.put(spaced_digits(&mut room, *width))?;
    }
    sink.put(b"\n")
}
