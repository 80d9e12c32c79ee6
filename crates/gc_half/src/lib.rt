//! Half gates: garbling a Boolean circuit so that XOR gates cost nothing and an AND gate costs two rows of 16
//! bytes. After "Two Halves Make a Whole" (Zahur, Rosulek and Evans, 2015), with free XOR and point and
//! permute.
//!
//! [`garble_one_thread`] makes the [`Garbling`] of a circuit under a seed: a zero label for each wire and a
//! [`RowPair`] for each AND gate. The other label of a wire is its zero label plus the offset. Evaluation
//! ([`evaluate_from`]) follows one label of each wire, the active one, through the gates: [`eval_and`] is
//! its step at an AND gate.
//!
//! [`garble_two`] garbles a circuit under two seeds side by side, and [`evaluate_four_from`] evaluates it four times.
//!
//! [`garble_from`] garbles from an offset and zero labels of the caller's, its AND gates numbered from any
//! [`FirstAnd`] on, and [`evaluate_labels`] returns the active labels of the output wires: so labels that come out of
//! one circuit can go into the next.
//!
//! [`StreamingGarbler`] and [`StreamingEvaluator`] garble and evaluate in pieces: row pairs leave as they are made, and
//! are used as they come.
//!
//! [`law_half_gates`] says that evaluation decodes to the output bits, [`law_garblings`] that each circuit has one
//! garbling under a seed, [`law_joined`] what labels that go from circuit to circuit stand for, and [`law_pieces`] that
//! the pieces of a circuit are together the whole.
#![tactic(auto)]

mod active_table;
mod bit_label;
mod compare;
mod entry;
mod evaluate;
mod first;
mod four;
mod garble;
mod garbling;
mod half_gate;
mod hash;
mod labels;
mod laws;
mod numbers;
mod one_gate;
mod streaming_evaluator;
mod streaming_garbler;
mod table;
mod two;
mod waiting;
mod zero_table;

pub use bit_label::encode;
pub use compare::garble_and_compare;
pub use entry::{four_output_entries, output_entry};
pub use evaluate::{Evaluation, evaluate_from, evaluate_labels, output_labels};
pub use first::FirstAnd;
pub use four::{Four, evaluate_four_from};
pub use garble::{Start, garble_from, garble_one_thread};
pub use garbling::{GarbledAnd, Garbling, Mismatch, NO_ROWS, RowPair};
pub use half_gate::{
    AndGate, AndStep, eval_and, eval_four_ands, eval_two_ands, garble_and, garble_two_ands,
};
pub use hash::{tweak_hash, tweak_hash_series};
pub use labels::{input_zero_labels, padded_labels};
pub use laws::{law_garblings, law_half_gates, law_joined, law_pieces};
pub use numbers::and_numbers;
pub use one_gate::{evaluate_gate, garble_gate, labels_read};
pub use streaming_evaluator::StreamingEvaluator;
pub use streaming_garbler::StreamingGarbler;
pub use table::Table;
pub use two::garble_two;
pub use waiting::{WaitingGate, WaitingGates};
