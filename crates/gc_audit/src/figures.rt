//! The statistics of a circuit.

/// Statistics of a circuit.
#[derive(Clone, Copy, Debug, PartialEq, Eq)]
pub struct Stats {
    /// How many XOR gates there are.
    pub xor: u32,
    /// How many AND gates there are.
    pub and: u32,
    /// How many INV gates there are.
    pub inv: u32,
    /// How many EQ gates there are.
    pub eq: u32,
    /// How many EQW gates there are.
    pub eqw: u32,
    /// The greatest depth of a wire that is set, 0 where none is. An input wire has depth 0, the wire of an EQ gate 1,
    /// and any other wire one more than the deepest wire that its gate reads.
    pub depth: u32,
    /// The greatest AND depth of a wire that is set: the same, where AND gates alone add one.
    pub and_depth: u32,
    /// How many gates set a wire that no gate reads and that is no output wire.
    pub unread: u32,
    /// How many bytes the garbled file of version 1 has.
    pub garbled1: u64,
    /// How many bytes the garbled file of version 2 has.
    pub garbled2: u64,
}
