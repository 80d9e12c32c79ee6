//! Circuits in Bristol Fashion that several tests read, and values and a seed for them.

use std::alloc::{AllocError, Global};
use std::test::Fail;

/// A full adder: three bits of input, and their sum and carry as one value.
pub const FULL_ADDER: &str = concat!(
    "5 8\n3 1 1 1\n1 2\n\n",
    "2 1 0 2 3 XOR\n2 1 1 2 4 XOR\n2 1 3 4 5 AND\n2 1 3 1 6 XOR\n2 1 5 2 7 XOR\n",
);

pub const AND: &str = "1 3\n2 1 1\n1 1\n2 1 0 1 2 AND";

pub const NO_GATES: &str = "0 2\n1 2\n1 2";

/// A seed of zeros.
pub const SEED: &str = "0000000000000000000000000000000000000000000000000000000000000000";

/// The input values 1, 0 and 1.
pub fn one_zero_one(alloc: Global) -> Result<Vec<Vec<bool>>, AllocError> {
    let mut values = Vec::new(alloc);
    for bit in [true, false, true] {
        values.push(vec![in alloc; bit; 1]?)?;
    }
    Ok(values)
}

/// This many AND gates, none of which reads what another sets.
pub fn many_ands(alloc: Global, gates: u32) -> Result<String, Fail> {
    let n = u64::from(gates);
    let mut text = format!(in alloc; "{n} {}\n2 {n} {n}\n1 {n}\n", 3 * n)?;
    for i in 0..n {
        text.push_str(format!(in alloc; "2 1 {i} {} {} AND\n", n + i, 2 * n + i)?.as_str())?;
    }
    Ok(text)
}

/// The gate at this place of a chain: every fourth gate is of another operation, of each in turn, and the others are
/// AND gates. A gate reads both wires, the first, or neither.
fn mixed_gate(alloc: Global, place: u64, wires: (u64, u64), set: u64) -> Result<String, Fail> {
    let (first, second) = wires;
    let line = match place % 16 {
        3 => format!(in alloc; "1 1 {first} {set} INV\n")?,
        7 => format!(in alloc; "2 1 {first} {second} {set} XOR\n")?,
        11 => format!(in alloc; "1 1 {first} {set} EQW\n")?,
        15 => format!(in alloc; "1 1 1 {set} EQ\n")?,
        _ => format!(in alloc; "2 1 {first} {second} {set} AND\n")?,
    };
    Ok(line)
}

/// Chains of gates, one after another in the file, each of this length: a gate reads what the gate before it in its
/// chain sets. All are AND gates, or where they are mixed three in four.
fn chains_of(alloc: Global, chains: u32, length: u32, is_mixed: bool) -> Result<String, Fail> {
    let n = u64::from(chains);
    let gates = n * u64::from(length);
    let mut text = format!(in alloc; "{gates} {}\n1 {n}\n1 1\n", n + gates)?;
    let mut set = n;
    for chain in 0..n {
        let mut read = chain;
        for place in 0..u64::from(length) {
            let place = if is_mixed { place } else { 0 };
            text.push_str(mixed_gate(alloc, place, (read, chain), set)?.as_str())?;
            read = set;
            set = set.saturating_add(1);
        }
    }
    Ok(text)
}

/// Chains of AND gates.
pub fn and_chains(alloc: Global, chains: u32, length: u32) -> Result<String, Fail> {
    chains_of(alloc, chains, length, false)
}

/// Chains in which every fourth gate is of another operation than AND.
pub fn mixed_chains(alloc: Global, chains: u32, length: u32) -> Result<String, Fail> {
    chains_of(alloc, chains, length, true)
}
