//! The command `labels`: the labels of a circuit's wires under a seed, and which of them stand for given values.

ghost use Rattle.std.specs.Prelude.{◌≡◌, ◌<◌, ◌++◌, ◌∷◌, ℕ, List, [], length, map, IfOk, IfErr, IfSome, MatchOption, string_bytes};
ghost use Rattle.gc_circuit.specs.Meaning.{Fits};
ghost use Rattle.gc_command.specs.Fault.{HasReadCause};
ghost use Rattle.gc_command.specs.Labels.{AnswersLabels, AreLabelLines, HasLabelsFault, IsLinesMemoryFault, label_digits, wire_line};

use crate::circuit_file::read_circuit;
use crate::fault::Fault;
use crate::seeded_circuit::SeededCircuit;
use crate::set_wires::SetWires;
use crate::values::read_values;
use arrayvec::ArrayVec;
use gc_circuit::wire_bits;
use gc_disk::Files;
use gc_half::{encode, garble_one_thread};
use gc_label::{Label, Offset, Seed, offset};
use gc_order::LabelsOrder;
use gc_work::WorkFault;
use itoa::Buffer;
use std::alloc::{Allocator, Global};
use std::marker::Model;

/// The bytes of the longest line: a 32-bit number, two labels and a bit, with a space or a line feed after each.
const LINE: usize = 79;

/// How many lines are given at once.
const LINES: usize = 48;

/// The bytes of as many lines.
const PIECE: usize = LINES * LINE;

/// The lines of `labels`, which are made as they are taken: a contract sees the bytes that are left.
#[derive(Drop)]
pub struct LabelLines<A: Allocator = Global> {
    wires: SetWires<A>,
    zero_labels: Vec<Label, A>,
    offset: Offset,
    bits: Vec<bool, A>,
}

impl<A: Allocator> Model for LabelLines<A> {
    ghost use Rattle.std.specs.Prelude.{◌≡◌, ℕ, List, length};
    ghost use Rattle.std.specs.List.{flat_map};
    ghost use Rattle.gc_command.specs.Labels.{line_of_wire};

    ghost Value = { List ℕ };

    ghost view = { λ l.
        flat_map (line_of_wire l.offset l.zero_labels.items l.bits.items) l.wires.left };

    ghost invariant = { λ l. (length l.zero_labels.items ≡ l.wires.wires)
        × (length l.bits.items ≡ l.wires.wires) };
}

/// Reads the circuit of a file, the seed and the values, garbles the circuit on one thread, and returns the lines of
/// its set wires, from the first and at most as many as the order asks for: each wire's number, its zero label, its
/// active label for the values, and its bit.
#[inline(never)]
pub fn labels<A: Allocator + Copy, F: Files>(
    alloc: A,
    order: &LabelsOrder,
    files: &mut F,
) -> Result<LabelLines<A>, Fault>
    ensures answers { IfOk result
        (λ lines. IfSome (F.bytes files.old (string_bytes order.now.circuit))
        (λ bytes. AnswersLabels bytes (string_bytes order.now.seed) order.now.from order.now.count
        (map string_bytes order.now.values.items) lines)) }
    ensures fault { IfErr result
        (λ fault. IfSome (F.bytes files.old (string_bytes order.now.circuit))
        (λ bytes. HasLabelsFault bytes (string_bytes order.now.seed)
        (map string_bytes order.now.values.items) fault)) }
    ensures cause { IfErr result (HasReadCause (F.failures files.old) (F.failures files.new)
        (string_bytes order.now.circuit)) }
    ensures same { (name : List ℕ) → F.bytes files.new name ≡ F.bytes files.old name }
{
    let (name, seed) = (order.circuit.as_str(), order.seed.as_str());
    let circuit = read_circuit(alloc, name, files)?;
    let seed = Seed::from_hex(seed)?;
    let values = read_values(alloc, circuit.input_widths(), &order.values)?;
    let seeded = SeededCircuit {
        alloc,
        circuit: &circuit,
        seed: &seed,
    };
    seeded.lines_of(order.from, order.count, &values)
}

impl<A: Allocator + Copy> SeededCircuit<'_, A> {
    /// The lines of the circuit's wires under the seed for these values. The row pairs are dropped before the bits are
    /// made. The caller ensures that the values fit the circuit.
    fn lines_of(
        &self,
        from: u32,
        count: u32,
        values: &[Vec<bool, A>],
    ) -> Result<LabelLines<A>, Fault>
        requires { Fits self.now.circuit.now (map (λ v. v.items) values.now) }
        ensures lines { IfOk result (AreLabelLines self.now.circuit.now self.now.seed.now
            (map (λ v. v.items) values.now) from count) }
        ensures fault { IfErr result IsLinesMemoryFault }
    {
        let (alloc, circuit) = (self.alloc, self.circuit);
        let Ok(garbling) = garble_one_thread(alloc, circuit, self.seed) else {
            return Err(Fault::Garbling(WorkFault::Memory));
        };
        let zero_labels = garbling.into_zero_labels();
        let bits = wire_bits(alloc, circuit, values)?;
        let wires = SetWires::new(alloc, circuit, from, count)?;
        Ok(LabelLines {
            wires,
            zero_labels,
            offset: offset(self.seed),
            bits,
        })
    }
}

impl<A: Allocator> LabelLines<A> {
    /// The next lines, each of them whole. There are none exactly where no line is left.
    pub fn next_lines(&mut self) -> ArrayVec<u8, PIECE>
        ensures taken { self.old ≡ result.items ++ self.new }
        ensures none { result.items ≡ [] → self.old ≡ [] }
    {
        let mut piece = ArrayVec::new();
        for _line in 0..LINES {
            let Some(line) = self.next_line() else {
                break;
            };
            piece.try_extend_from_slice(&line).unwrap();
        }
        piece
    }

    /// The next line, if one is left.
    fn next_line(&mut self) -> Option<ArrayVec<u8, LINE>>
        ensures { MatchOption result ((self.old ≡ []) × (self.new ≡ []))
            (λ line. (self.old ≡ line.items ++ self.new) × (0 < length line.items)) }
    {
        let wire = self.wires.next()?;
        let zero_label = self.zero_labels[wire as usize];
        let bit = self.bits[wire as usize];
        Some(wire_line(self.offset, wire, zero_label, bit))
    }
}

/// The line of a wire with this zero label and this bit.
fn wire_line(offset: Offset, wire: u32, zero_label: Label, bit: bool) -> ArrayVec<u8, LINE>
    ensures line { result.items ≡ wire_line offset wire zero_label bit }
    ensures some { 0 < length result.items }
{
    let active = encode(offset, zero_label, bit);
    let mut number = Buffer::new();
    let mut line = ArrayVec::new();
    line.try_extend_from_slice(number.format(wire).as_bytes())
        .unwrap();
    line.try_extend_from_slice(&label_word(zero_label)).unwrap();
    line.try_extend_from_slice(&label_word(active)).unwrap();
    line.try_extend_from_slice(if bit { b" 1\n" } else { b" 0\n" })
        .unwrap();
    line
}

/// A space and the digits of a label.
fn label_word(label: Label) -> [u8; 33]
    ensures { result ≡ 32 ∷ label_digits label }
{
    let mut word = [b' '; 33];
    hex::encode_to_slice(label.to_bytes(), &mut word[1..]).unwrap();
    word
}
