//! Tests of the text that a circuit shows, and of the digest of a text that may be the canonical one.

use gc_circuit::Circuit;
use gc_fixtures::circuits::{AND, FULL_ADDER};
use gc_fixtures::compare::equal;
use std::test::Fail;

#[test]
fn shows_the_sizes(rt: HostRuntime) -> Result<(), Fail> {
    let circuit = Circuit::read(rt.alloc(), FULL_ADDER.as_bytes())?;
    let shown = format!(in rt.alloc(); "{circuit:?}")?;
    let wanted = "Circuit { gates: 5, wires: 8, input_widths: [1, 1, 1], output_widths: [2], .. }";
    assert!(rt; shown.as_str() == wanted);
    Ok(())
}

/// Only a text that isn't canonical needs a digest of its own.
#[test]
fn no_digest_of_the_canonical_text(rt: HostRuntime) -> Result<(), Fail> {
    let circuit = Circuit::read(rt.alloc(), FULL_ADDER.as_bytes())?;
    let canonical = circuit.digest_unless_canonical(FULL_ADDER.as_bytes());
    let other = circuit.digest_unless_canonical(AND.as_bytes());
    equal((canonical, other), (None, Some(circuit.digest())))
}
