//! Why a text is no circuit.

ghost use Rattle.std.specs.Prelude.{◌≡◌, ◌≢◌, ◌≤◌, pos, length};
ghost use Rattle.core.specs.Ptr.{as_mut_ptr};
ghost use denote.RawPtr.{Testable};
ghost use Rattle.halfgates_c.specs.ReturnsCode.{ReturnsCode};
ghost use Rattle.halfgates_c.specs.Places.{IsTextMemory};
ghost use Rattle.halfgates_c.specs.Sentences.{filled, IsExplained, IsSentenceOn};

use crate::code::{NULL_POINTER, OK, code_of};
use crate::null::is_null;
use gc_circuit::{Circuit, Located, MAX_SENTENCE, ReadFault, sentence_of};
use gc_kept::KeptFault;
use std::alloc::Global;

/// A sentence that a zero byte ends: `halfgates_sentence`.
#[repr(C)]
#[derive(Clone, Copy)]
pub struct Sentence {
    pub text: [u8; MAX_SENTENCE + 1],
}

impl Sentence {
    /// The sentence of these bytes, and zeros after them.
    fn of(bytes: &[u8]) -> Sentence
        requires { length bytes.now ≤ MAX_SENTENCE }
        ensures { result.text ≡ filled bytes.now }
    {
        let mut text = [0; MAX_SENTENCE + 1];
        text[..bytes.len()].copy_from_slice(bytes);
        Sentence { text }
    }

    /// The sentence on the first fault of a text, which is here, or none.
    fn on(text: &[u8], found: Option<Located>) -> Sentence
        ensures { IsSentenceOn found result.text }
    {
        match found {
            Some(located) => Sentence::of(sentence_of(text, &located).as_bytes()),
            None => Sentence::of(&[]),
        }
    }
}

/// Writes the sentence that explains the first fault of a text, or an empty one where the text is a circuit.
#[unsafe(no_mangle)]
pub extern "C" fn halfgates_explain(alloc: Global, text: &[u8], sentence: &mut Sentence) -> i32
    requires sentence { Testable (as_mut_ptr sentence) }
    ensures answers { ReturnsCode result (IsExplained text.now sentence.new.text) IsTextMemory }
    ensures kept { result ≢ pos 0 → sentence.new ≡ sentence.old }
{
    if is_null(sentence) {
        return NULL_POINTER;
    }
    match Circuit::locate(alloc, text) {
        Ok(found) => {
            *sentence = Sentence::on(text, found);
            OK
        }
        Err(_) => code_of(Err(KeptFault::Circuit(ReadFault::Memory))),
    }
}
