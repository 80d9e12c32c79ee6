//! Boolean circuits in Bristol Fashion: reading and writing them, their digests, and evaluating them in the clear.
//!
//! What a circuit is and what a text spells is defined in `gc_netlist`. Texts of values are read here too, and the
//! first fault of a text is explained in a sentence.
#![tactic(auto)]

mod arrays;
mod canon;
mod canonical_lines;
mod checks;
mod circuit;
mod digest;
mod eval;
mod format;
mod gates;
mod hexadecimal;
mod hint;
mod locate;
mod meaning;
mod memory;
mod read;
mod sentence;
mod stop;
mod text_sink;
mod value;

pub use arrays::{Arrays, ArraysFault, GateNumbers};
pub use circuit::Circuit;
pub use eval::{fits, law_assignments, plain_eval, wire_bits};
pub use gc_netlist::{Gate, Operation, ReadFault};
pub use hexadecimal::byte_of;
pub use locate::Located;
pub use meaning::meaning_of;
pub use memory::Memory;
pub use sentence::{MAX_SENTENCE, sentence_of};
pub use value::{ValueFault, law_value_texts, read_value, show_value};
