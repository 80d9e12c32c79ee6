//! The limits of a circuit. Each is defined here only.

/// The most gates that a circuit may have.
pub const MAX_GATES: u32 = 1 << 24;

/// The most wires that a circuit may have.
pub const MAX_WIRES: u32 = 1 << 25;

/// The most input values that a circuit may have, and the most output values.
pub const MAX_VALUES: u32 = 256;
