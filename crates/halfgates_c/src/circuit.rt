//! Circuits.

ghost use Rattle.std.specs.Prelude.{◌≡◌, ◌≢◌, IfErr, IsFalse, MatchBool, OnErr, OnOk, Some, false, length, pos, true};
ghost use Rattle.core.specs.Ptr.{as_mut_ptr};
ghost use denote.RawPtr.{Testable};
ghost use Rattle.sha2.specs.Sha256.{sha256};
ghost use Rattle.gc_netlist.specs.Canon.{canonical_text};
ghost use Rattle.gc_kept.specs.Circuit.{HasCircuitTextFault};
ghost use Rattle.gc_kept.specs.Plain.{ArePlainOutputs, HasPlainBufferFault};
ghost use Rattle.halfgates_c.specs.ReturnsCode.{ReturnsCode};
ghost use Rattle.halfgates_c.specs.Holding.{IsHeldCircuit, OfCircuit, OfDigested, OfKept};
ghost use Rattle.halfgates_c.specs.Reading.{HoldsCircuit, HoldsOrdered, HoldsShared};
ghost use Rattle.halfgates_c.specs.Numbers.{AreNumbers, Copies};

use crate::code::{NO_DIGEST, NULL_POINTER, OK, SMALL_BUFFER, WRONG_HANDLE, code_of};
use crate::handle::{Handle, on_held};
use crate::null::is_null;
use crate::slot::Slot;
use gc_kept::{Held, KeptCircuit, KeptFault};
use std::alloc::Global;

/// The numbers of a circuit: `halfgates_numbers`.
#[repr(C)]
#[derive(Clone, Copy)]
pub struct Numbers {
    pub gates: u32,
    pub and_gates: u32,
    pub wires: u32,
    pub input_wires: u32,
    pub output_wires: u32,
    pub input_values: u32,
    pub output_values: u32,
}

/// Hands out a circuit that has no digest, or takes its digest first. That it has none is the caller's condition.
pub(crate) fn hand_out(
    alloc: Global,
    mut circuit: KeptCircuit,
    with_digest: bool,
    slot: &mut Slot,
) -> Result<(), KeptFault>
    requires { IsFalse circuit.has_digest }
    ensures ok { OnOk result (IsHeldCircuit slot.new.held circuit.netlist with_digest) }
    ensures fault { IfErr result (λ fault. fault ≡ KeptFault.Memory) }
    ensures kept { OnErr result (slot.new ≡ slot.old) }
{
    if with_digest {
        circuit.take_digest();
    }
    slot.hand_out(alloc, Held::Circuit(circuit))
}

/// Reads a circuit and hands it out, with its digest or without.
fn read(alloc: Global, text: &[u8], with_digest: bool, slot: &mut Slot) -> Result<(), KeptFault>
    ensures ok { OnOk result (HoldsCircuit text.now with_digest slot.new) }
    ensures fault { IfErr result (HasCircuitTextFault text.now) }
    ensures kept { OnErr result (slot.new ≡ slot.old) }
{
    let circuit = KeptCircuit::read(alloc, text)?;
    hand_out(alloc, circuit, with_digest, slot)
}

/// Reads a circuit, and takes its digest.
#[unsafe(no_mangle)]
pub extern "C" fn halfgates_circuit_read(alloc: Global, text: &[u8], circuit: &mut Slot) -> i32
    requires circuit { Testable (as_mut_ptr circuit) }
    ensures answers { ReturnsCode result (HoldsCircuit text.now true circuit.new)
        (HasCircuitTextFault text.now) }
    ensures kept { result ≢ pos 0 → circuit.new ≡ circuit.old }
{
    if is_null(circuit) {
        return NULL_POINTER;
    }
    code_of(read(alloc, text, true, circuit))
}

/// Reads a circuit, without its digest.
#[unsafe(no_mangle)]
pub extern "C" fn halfgates_circuit_read_without_digest(
    alloc: Global,
    text: &[u8],
    circuit: &mut Slot,
) -> i32
    requires circuit { Testable (as_mut_ptr circuit) }
    ensures answers { ReturnsCode result (HoldsCircuit text.now false circuit.new)
        (HasCircuitTextFault text.now) }
    ensures kept { result ≢ pos 0 → circuit.new ≡ circuit.old }
{
    if is_null(circuit) {
        return NULL_POINTER;
    }
    code_of(read(alloc, text, false, circuit))
}

/// Takes the digest of what is held, if it is a circuit.
fn take_digest(held: &mut Held) -> i32
    ensures answer { OfCircuit (Some held.old) result
        (λ c. (result ≡ pos 0) × IsHeldCircuit (Some held.new) c true) }
    ensures kept { result ≢ pos 0 → held.new ≡ held.old }
{
    match held {
        Held::Circuit(circuit) => {
            circuit.take_digest();
            OK
        }
        _ => WRONG_HANDLE,
    }
}

/// Takes the digest of a circuit, where it has none.
#[unsafe(no_mangle)]
pub extern "C" fn halfgates_circuit_take_digest(alloc: Global, circuit: &mut Slot) -> i32
    ensures answer { OfCircuit circuit.old.held result
        (λ c. (result ≡ pos 0) × IsHeldCircuit circuit.new.held c true) }
    ensures kept { result ≢ pos 0 → circuit.new.held ≡ circuit.old.held }
{
    let Some(mut held) = circuit.take(alloc) else {
        return NULL_POINTER;
    };
    let code = take_digest(&mut held);
    circuit.put(held);
    code
}

/// One more handle of a circuit.
#[unsafe(no_mangle)]
pub extern "C" fn halfgates_circuit_share(
    alloc: Global,
    circuit: &mut Handle,
    other: &mut Slot,
) -> i32
    requires other { Testable (as_mut_ptr other) }
    ensures answer { OfKept circuit.old.held result (λ c.
        ReturnsCode result (HoldsShared c other.new) (λ fault. fault ≡ KeptFault.Memory)) }
    ensures back { circuit.new ≡ circuit.old }
    ensures kept { result ≢ pos 0 → other.new ≡ other.old }
{
    if is_null(other) {
        return NULL_POINTER;
    }
    on_held!(circuit, Circuit(circuit) => match circuit.again() {
        Ok(made) => code_of(other.hand_out(alloc, Held::Circuit(made))),
        Err(fault) => code_of(Err(fault)),
    })
}

/// The circuit with its gates in order of AND depth.
#[unsafe(no_mangle)]
pub extern "C" fn halfgates_circuit_order(
    alloc: Global,
    circuit: &mut Handle,
    ordered: &mut Slot,
) -> i32
    requires ordered { Testable (as_mut_ptr ordered) }
    ensures answer { OfKept circuit.old.held result (λ c.
        ReturnsCode result (HoldsOrdered c ordered.new) (λ fault. fault ≡ KeptFault.Memory)) }
    ensures back { circuit.new ≡ circuit.old }
    ensures kept { result ≢ pos 0 → ordered.new ≡ ordered.old }
{
    if is_null(ordered) {
        return NULL_POINTER;
    }
    on_held!(circuit, Circuit(circuit) => match circuit.ordered(alloc) {
        Ok(made) => code_of(ordered.hand_out(alloc, Held::Circuit(made))),
        Err(fault) => code_of(Err(fault)),
    })
}

/// Frees a circuit. Null is allowed.
#[unsafe(no_mangle)]
pub extern "C" fn halfgates_circuit_free(circuit: Slot) {
    drop(circuit);
}

/// The numbers of a circuit.
fn numbers_of(circuit: &KeptCircuit) -> Numbers
    ensures { AreNumbers circuit.now.netlist result }
{
    let circuit = circuit.circuit();
    Numbers {
        gates: circuit.gates(),
        and_gates: circuit.and_count(),
        wires: circuit.wires(),
        input_wires: circuit.input_wires(),
        output_wires: circuit.output_wires(),
        input_values: circuit.input_widths().len() as u32,
        output_values: circuit.output_widths().len() as u32,
    }
}

/// Writes the numbers of a circuit.
#[unsafe(no_mangle)]
pub extern "C" fn halfgates_circuit_numbers(circuit: &mut Handle, numbers: &mut Numbers) -> i32
    requires numbers { Testable (as_mut_ptr numbers) }
    ensures answer { OfCircuit circuit.old.held result
        (λ c. (result ≡ pos 0) × AreNumbers c numbers.new) }
    ensures back { circuit.new ≡ circuit.old }
    ensures kept { result ≢ pos 0 → numbers.new ≡ numbers.old }
{
    if is_null(numbers) {
        return NULL_POINTER;
    }
    on_held!(circuit, Circuit(circuit) => {
        *numbers = numbers_of(circuit);
        OK
    })
}

/// Copies the widths to the front of a buffer, where it has room for them.
fn copy_widths(widths: &[u32], copied: &mut [u32]) -> i32
    ensures answer { Copies result widths.now copied.old copied.new }
{
    if copied.len() < widths.len() {
        return SMALL_BUFFER;
    }
    copied[..widths.len()].copy_from_slice(widths);
    OK
}

/// Writes the number of wires of each input value.
#[unsafe(no_mangle)]
pub extern "C" fn halfgates_circuit_input_widths(circuit: &mut Handle, widths: &mut [u32]) -> i32
    ensures answer { OfCircuit circuit.old.held result
        (λ c. Copies result c.input_widths widths.old widths.new) }
    ensures back { circuit.new ≡ circuit.old }
    ensures kept { result ≢ pos 0 → widths.new ≡ widths.old }
{
    on_held!(circuit, Circuit(circuit) => {
        copy_widths(circuit.circuit().input_widths(), widths)
    })
}

/// Writes the number of wires of each output value.
#[unsafe(no_mangle)]
pub extern "C" fn halfgates_circuit_output_widths(circuit: &mut Handle, widths: &mut [u32]) -> i32
    ensures answer { OfCircuit circuit.old.held result
        (λ c. Copies result c.output_widths widths.old widths.new) }
    ensures back { circuit.new ≡ circuit.old }
    ensures kept { result ≢ pos 0 → widths.new ≡ widths.old }
{
    on_held!(circuit, Circuit(circuit) => {
        copy_widths(circuit.circuit().output_widths(), widths)
    })
}

/// Writes the digest of a circuit, if it has one.
fn write_digest(circuit: &KeptCircuit, digest: &mut [u8; 32]) -> i32
    ensures answer { MatchBool circuit.now.has_digest
        ((result ≡ pos 0) × (digest.new ≡ sha256 (canonical_text circuit.now.netlist)))
        (result ≡ pos 68) }
    ensures kept { result ≢ pos 0 → digest.new ≡ digest.old }
{
    match circuit.digest() {
        Ok(found) => {
            *digest = *found;
            OK
        }
        Err(_) => NO_DIGEST,
    }
}

/// Writes the digest of a circuit.
#[unsafe(no_mangle)]
pub extern "C" fn halfgates_circuit_digest(circuit: &mut Handle, digest: &mut [u8; 32]) -> i32
    requires digest { Testable (as_mut_ptr digest) }
    ensures answer { OfDigested circuit.old.held result
        (λ c. (result ≡ pos 0) × (digest.new ≡ sha256 (canonical_text c))) }
    ensures back { circuit.new ≡ circuit.old }
    ensures kept { result ≢ pos 0 → digest.new ≡ digest.old }
{
    if is_null(digest) {
        return NULL_POINTER;
    }
    on_held!(circuit, Circuit(circuit) => write_digest(circuit, digest))
}

/// Evaluates a circuit in the clear.
#[unsafe(no_mangle)]
pub extern "C" fn halfgates_plain(
    alloc: Global,
    circuit: &mut Handle,
    bits: &[u8],
    outputs: &mut [u8],
) -> i32
    ensures answer { OfCircuit circuit.old.held result (λ c.
        ReturnsCode result (ArePlainOutputs c bits.now outputs.old outputs.new)
        (HasPlainBufferFault c bits.now (length outputs.old))) }
    ensures back { circuit.new ≡ circuit.old }
    ensures kept { result ≢ pos 0 → outputs.new ≡ outputs.old }
{
    on_held!(circuit, Circuit(circuit) => {
        code_of(circuit.plain(alloc, bits, outputs))
    })
}
