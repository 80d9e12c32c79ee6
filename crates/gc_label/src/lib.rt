//! The labels of wires, and the seed that gives the offset and the input wires' zero labels.
//!
//! Each wire of a garbled circuit has two labels of 16 bytes, one for each bit. They differ by one
//! [`Offset`] for the whole circuit (free XOR), whose colour is 1, so that the two labels of a wire
//! have different colours (point and permute). After "Two Halves Make a Whole" (Zahur, Rosulek and
//! Evans, 2015).
//!
//! A [`Seed`] of 32 bytes is the key of a ChaCha20 keystream (RFC 8439, with a 64-bit block counter and the 64-bit
//! stream number 0), from which [`offset`] and [`input_label`] are read. No call allocates.
#![tactic(auto)]

mod keystream;
mod label;
mod seed;

pub use keystream::{fill_input_labels, input_label, offset};
pub use label::{Label, Offset};
pub use seed::{BadSeed, Seed};
