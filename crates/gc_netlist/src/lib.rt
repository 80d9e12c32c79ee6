//! What a Boolean circuit is, and what a text in Bristol Fashion spells.
//!
//! The definitions are in `specs/`. Here are [`Gate`]s and their [`Operation`]s, the limits of a circuit, and the
//! faults of texts that spell none. [`law_reading`] says that each text spells exactly one lawful circuit or has
//! exactly one first fault, and [`law_canonical_text`] that a lawful circuit has one canonical text.
#![tactic(auto)]

mod fault;
mod gate;
mod laws;
mod limits;
mod names;

pub use fault::ReadFault;
pub use gate::{Gate, Operation};
pub use laws::{law_canonical_text, law_reading};
pub use limits::{MAX_GATES, MAX_VALUES, MAX_WIRES};
pub use names::fault_name;
