//! Puts the gates of a circuit in order of their AND depth, so that AND gates that follow one another don't read each
//! other's wires and are garbled and evaluated several at once.
#![tactic(auto)]

mod laws;
mod order;
mod place;
mod ranks;

pub use laws::law_reordering;
pub use order::order_by_depth;
