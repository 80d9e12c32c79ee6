//! The view that a seat has of the banks, and what a table of banks is given when it is made.

use std::collections::LinkedList;

/// Where a seat is.
pub enum Position {
    Outside,
    /// Counted in, in this round.
    Inside(u32),
    /// Counted in at this bank by an entry that is refused, and not yet taken out again.
    Passing(u32),
}

/// One atomic step of a seat's record: its word, and the number found there, or stored.
pub enum Step {
    /// A load.
    Load(u64, u64),
    /// A store.
    Store(u64, u64),
    /// An exchange of the state of a gate.
    Claim(u64, u64),
    /// An addition of 1, by a seat that enters.
    Enter(u64, u64),
    /// A subtraction of 1, by a seat that leaves.
    Leave(u64, u64),
    /// An or of the mark, by a seat that seals.
    Seal(u64, u64),
    /// An exchange of a bank's word, and whether it won.
    Reopen(u64, u64, bool),
}

/// What a seat knows and has done. Only contracts see it: no value of it is made.
pub struct View<I> {
    /// How many jobs the banks serve.
    pub jobs: u32,
    /// How many seats the banks have.
    pub all: u32,
    /// How many of them this view stands for: 1 for a seat, 0 for a view that was joined to another.
    pub seats: u32,
    pub position: Position,
    /// Its steps, in order.
    pub steps: LinkedList<Step>,
    /// What else it knows.
    pub inner: I,
}

/// What a table of banks is given when it is made: how many jobs and seats there are, and what the other words are
/// about.
#[derive(Drop)]
pub struct Key<T> {
    pub jobs: u32,
    pub seats: u32,
    pub about: T,
}
