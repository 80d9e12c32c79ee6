//! Sentences.

ghost use Rattle.std.specs.Prelude.{◌≡◌, ◌≤◌, ◌++◌, ◌+◌, [], decimal, length};
ghost use Rattle.gc_circuit.specs.Sentence.{subject, IsSentence};

use crate::hint::hint_of;
use crate::locate::Located;
use crate::meaning::meaning_of;
use arrayvec::ArrayString;
use itoa::Buffer;

/// The most bytes of a sentence.
pub const MAX_SENTENCE: usize = 255;

/// The sentence on the first fault of a text, which is at this place: the gate and the wire that the fault is about,
/// what it means, and a hint where the text looks like another format.
pub fn sentence_of(text: &[u8], located: &Located) -> ArrayString<MAX_SENTENCE>
    ensures { IsSentence located.now result.bytes }
{
    let mut sentence = ArrayString::new();
    push_subject(&mut sentence, located.gate, located.wire);
    sentence.push_str(meaning_of(located.fault));
    if let Some(hint) = hint_of(text, located.line) {
        sentence.push_str("; ");
        sentence.push_str(hint);
    }
    sentence
}

/// Begins a sentence by the gate and the wire that it is about.
fn push_subject(sentence: &mut ArrayString<MAX_SENTENCE>, gate: Option<u32>, wire: Option<u32>)
    requires { sentence.old.bytes ≡ [] }
    ensures bytes { sentence.new.bytes ≡ subject gate wire }
    ensures short { length sentence.new.bytes ≤ 34 }
{
    match (gate, wire) {
        (Some(gate), Some(wire)) => {
            push_number(sentence, "gate ", gate);
            push_number(sentence, ", wire ", wire);
            sentence.push_str(": ");
        }
        (Some(gate), None) => {
            push_number(sentence, "gate ", gate);
            sentence.push_str(": ");
        }
        (None, Some(wire)) => {
            push_number(sentence, "wire ", wire);
            sentence.push_str(": ");
        }
        (None, None) => {}
    }
}

/// Adds a word of at most seven bytes, and a number.
fn push_number(sentence: &mut ArrayString<MAX_SENTENCE>, word: &str, number: u32)
    requires { (length word.now ≤ 7) × (length sentence.old.bytes ≤ 40) }
    ensures bytes { sentence.new.bytes ≡ sentence.old.bytes ++ word.now ++ decimal number }
    ensures short { length sentence.new.bytes ≤ length sentence.old.bytes + length word.now + 10 }
{
    let mut buffer = Buffer::new();
    sentence.push_str(word);
    sentence.push_str(buffer.format(number));
}
