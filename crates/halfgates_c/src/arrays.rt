//! Circuits from arrays of gates.

ghost use Rattle.std.specs.Prelude.{◌≡◌, ◌≢◌, IfErr, IfOk, IsFalse, OnOk, false, pos, true};
ghost use Rattle.core.specs.Ptr.{as_mut_ptr};
ghost use denote.RawPtr.{Testable};
ghost use Rattle.gc_netlist.specs.Canon.{canonical_text};
ghost use Rattle.gc_netlist.specs.Circuit.{IsLawful};
ghost use Rattle.gc_circuit.specs.Arrays.{arrays_text, text_of};
ghost use Rattle.halfgates_c.specs.ReturnsCode.{ReturnsCode};
ghost use Rattle.halfgates_c.specs.Arrays.{HoldsCanonical, IsArraysPlace, HasArraysFault};

use crate::circuit::hand_out;
use crate::code::{NULL_POINTER, code_of};
use crate::locate::{NONE, Place};
use crate::null::is_null;
use crate::slot::Slot;
use gc_circuit::{Arrays, ArraysFault, GateNumbers, ReadFault};
use gc_kept::{KeptCircuit, KeptFault};
use std::alloc::Global;

/// The place of a fault in arrays, which have no lines.
fn place_of(at: ArraysFault) -> Place
    ensures { IsArraysPlace at.fault at.gate at.wire result }
{
    Place {
        fault: KeptFault::Circuit(at.fault).code() as i32,
        gate: at.gate.unwrap_or(NONE),
        wire: at.wire.unwrap_or(NONE),
        line: 0,
        column: 0,
    }
}

/// Makes a circuit of arrays, or writes where the first fault is.
fn make(alloc: Global, arrays: Arrays<'_>, place: &mut Place) -> Result<KeptCircuit, KeptFault>
    ensures lawful { IfOk result (λ c. IsLawful c.netlist) }
    ensures text { IfOk result (λ c. canonical_text c.netlist ≡ text_of arrays.entry) }
    ensures without { IfOk result (λ c. IsFalse c.has_digest) }
    ensures fault { IfErr result (HasArraysFault (text_of arrays.entry) place.old place.new) }
    ensures unplaced { OnOk result (place.new ≡ place.old) }
{
    match KeptCircuit::from_arrays(alloc, arrays) {
        Ok(circuit) => Ok(circuit),
        Err(at) => {
            if at.fault != ReadFault::Memory {
                *place = place_of(at);
            }
            Err(KeptFault::Circuit(at.fault))
        }
    }
}

/// Makes a circuit of arrays of gates, and takes its digest.
#[unsafe(no_mangle)]
pub extern "C" fn halfgates_circuit_from_gates(
    alloc: Global,
    gates: &[GateNumbers],
    wires: u32,
    input_widths: &[u32],
    output_widths: &[u32],
    circuit: &mut Slot,
    place: &mut Place,
) -> i32
    requires circuit { Testable (as_mut_ptr circuit) }
    ensures answers { let text = arrays_text wires input_widths.now output_widths.now gates.now in
        ReturnsCode result (HoldsCanonical text true circuit.new)
        (HasArraysFault text place.old place.new) }
    ensures kept { result ≢ pos 0 → circuit.new ≡ circuit.old }
    ensures unplaced { result ≡ pos 0 → place.new ≡ place.old }
{
    if is_null(circuit) {
        return NULL_POINTER;
    }
    let arrays = Arrays {
        wires,
        input_widths,
        output_widths,
        gates,
    };
    match make(alloc, arrays, place) {
        Ok(made) => code_of(hand_out(alloc, made, true, circuit)),
        Err(fault) => code_of(Err(fault)),
    }
}

/// Makes a circuit of arrays of gates, without its digest.
#[unsafe(no_mangle)]
pub extern "C" fn halfgates_circuit_from_gates_without_digest(
    alloc: Global,
    gates: &[GateNumbers],
    wires: u32,
    input_widths: &[u32],
    output_widths: &[u32],
    circuit: &mut Slot,
    place: &mut Place,
) -> i32
    requires circuit { Testable (as_mut_ptr circuit) }
    ensures answers { let text = arrays_text wires input_widths.now output_widths.now gates.now in
        ReturnsCode result (HoldsCanonical text false circuit.new)
        (HasArraysFault text place.old place.new) }
    ensures kept { result ≢ pos 0 → circuit.new ≡ circuit.old }
    ensures unplaced { result ≡ pos 0 → place.new ≡ place.old }
{
    if is_null(circuit) {
        return NULL_POINTER;
    }
    let arrays = Arrays {
        wires,
        input_widths,
        output_widths,
        gates,
    };
    match make(alloc, arrays, place) {
        Ok(made) => code_of(hand_out(alloc, made, false, circuit)),
        Err(fault) => code_of(Err(fault)),
    }
}
