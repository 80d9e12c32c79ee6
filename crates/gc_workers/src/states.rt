//! The states of a gate on a board, or at banks.

/// The state of a gate that no seat has.
pub const FREE: u64 = 0;

/// The state of a gate that a seat has in hand.
pub const IN_HAND: u64 = 1;

/// The state of a gate that is made.
pub const DONE: u64 = 2;
