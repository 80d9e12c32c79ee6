//! Files.

ghost use Rattle.std.specs.Prelude.{◌≡◌, ◌≢◌, MatchOption, pos, length};
ghost use Rattle.core.specs.Ptr.{as_ptr, as_mut_ptr};
ghost use denote.RawPtr.{Testable};
ghost use Rattle.gc_netlist.specs.Canon.{canonical_text};
ghost use Rattle.gc_file.specs.Honest.{IsFileSize};
ghost use Rattle.gc_kept.specs.Version.{version_of};
ghost use Rattle.gc_kept.specs.Files.{IsDealtAt, IsDealtFrom, IsGarbledAt, IsWholeFileAt, HasDealtFault, HasDealtFaultFrom, HasGarbledWriteFault, HasWriteFault};
ghost use Rattle.gc_kept.specs.Labels.{IsReceivedAt, HasReceivedFault};
ghost use Rattle.halfgates_c.specs.ReturnsCode.{ReturnsCodeAndSize};
ghost use Rattle.halfgates_c.specs.Holding.{OfCircuit, OfGarbling, held_circuit};

use crate::code::{BAD_ARGUMENT, NULL_POINTER, report};
use crate::handle::{Handle, on_held};
use crate::null::is_null;
use gc_kept::{InputBytes, KeptGarbling, SeededBytes, version_of};
use std::alloc::Global;

/// Writes the canonical text of a circuit.
#[unsafe(no_mangle)]
pub extern "C" fn halfgates_circuit_text(
    alloc: Global,
    circuit: &mut Handle,
    buffer: &mut [u8],
    written: &mut usize,
) -> i32
    requires written { Testable (as_mut_ptr written) }
    ensures answer { OfCircuit circuit.old.held result (λ c.
        ReturnsCodeAndSize result written.new (IsWholeFileAt (canonical_text c) buffer.old
        buffer.new)
        (HasWriteFault (canonical_text c) (length buffer.old))) }
    ensures back { circuit.new ≡ circuit.old }
    ensures kept { result ≢ pos 0 → buffer.new ≡ buffer.old }
    ensures unreported { result ≢ pos 0 → result ≢ pos 61 → written.new ≡ written.old }
{
    if is_null(written) {
        return NULL_POINTER;
    }
    on_held!(circuit, Circuit(circuit) => {
        report(circuit.write_text(alloc, buffer), written)
    })
}

/// How many bytes the garbled file of a version has; 0 for a bad argument.
#[unsafe(no_mangle)]
pub extern "C" fn halfgates_garbled_size(circuit: &mut Handle, version: u32) -> u64
    ensures size { MatchOption (held_circuit circuit.old.held) (result ≡ 0) (λ c.
        MatchOption (version_of version) (result ≡ 0) (λ v. IsFileSize v c result)) }
    ensures back { circuit.new ≡ circuit.old }
{
    on_held!(circuit, Circuit(circuit) => match version_of(version) {
        Some(version) => circuit.garbled_size(version),
        None => 0,
    }, wrong 0, null 0)
}

/// A garbling, and the number of the version of its file.
#[derive(Clone, Copy)]
struct Versioned<'a> {
    garbling: &'a KeptGarbling,
    version: u32,
}

/// Writes the garbled file of a version.
fn write_version(alloc: Global, of: Versioned<'_>, buffer: &mut [u8], written: &mut usize) -> i32
    ensures answer { MatchOption (version_of of.entry.version) (result ≡ pos 60) (λ v.
        ReturnsCodeAndSize result written.new
        (IsGarbledAt of.entry.garbling.now v buffer.old buffer.new)
        (HasGarbledWriteFault of.entry.garbling.now v (length buffer.old))) }
    ensures kept { result ≢ pos 0 → buffer.new ≡ buffer.old }
    ensures unreported { result ≢ pos 0 → result ≢ pos 61 → written.new ≡ written.old }
{
    match version_of(of.version) {
        Some(version) => report(of.garbling.write(alloc, version, buffer), written),
        None => BAD_ARGUMENT,
    }
}

/// Writes the garbled file of a garbling.
#[unsafe(no_mangle)]
pub extern "C" fn halfgates_garbling_write(
    alloc: Global,
    garbling: &mut Handle,
    version: u32,
    buffer: &mut [u8],
    written: &mut usize,
) -> i32
    requires written { Testable (as_mut_ptr written) }
    ensures answer { OfGarbling garbling.old.held result (λ g.
        MatchOption (version_of version) (result ≡ pos 60) (λ v.
        ReturnsCodeAndSize result written.new (IsGarbledAt g v buffer.old buffer.new)
        (HasGarbledWriteFault g v (length buffer.old)))) }
    ensures back { garbling.new ≡ garbling.old }
    ensures kept { result ≢ pos 0 → buffer.new ≡ buffer.old }
    ensures unreported { result ≢ pos 0 → result ≢ pos 61 → written.new ≡ written.old }
{
    if is_null(written) {
        return NULL_POINTER;
    }
    on_held!(garbling, Garbling(garbling) => {
        write_version(alloc, Versioned { garbling, version }, buffer, written)
    })
}

/// Writes the label file of an input value.
#[unsafe(no_mangle)]
pub extern "C" fn halfgates_deal(
    alloc: Global,
    circuit: &mut Handle,
    seed: &[u8; 32],
    index: u32,
    bits: &[u8],
    buffer: &mut [u8],
    written: &mut usize,
) -> i32
    requires seed { Testable (as_ptr seed) }
    requires written { Testable (as_mut_ptr written) }
    ensures answer { OfCircuit circuit.old.held result (λ c.
        ReturnsCodeAndSize result written.new
        (IsDealtAt c seed.now index bits.now buffer.old buffer.new)
        (HasDealtFault c seed.now index bits.now (length buffer.old))) }
    ensures back { circuit.new ≡ circuit.old }
    ensures kept { result ≢ pos 0 → buffer.new ≡ buffer.old }
    ensures unreported { result ≢ pos 0 → result ≢ pos 61 → written.new ≡ written.old }
{
    if is_null(seed) || is_null(written) {
        return NULL_POINTER;
    }
    let input = InputBytes { index, bytes: bits };
    on_held!(circuit, Circuit(circuit) => {
        report(circuit.deal(alloc, SeededBytes { seed, input }, buffer), written)
    })
}

/// Writes the label file of an input value, from a garbling.
#[unsafe(no_mangle)]
pub extern "C" fn halfgates_garbling_deal(
    alloc: Global,
    garbling: &mut Handle,
    index: u32,
    bits: &[u8],
    buffer: &mut [u8],
    written: &mut usize,
) -> i32
    requires written { Testable (as_mut_ptr written) }
    ensures answer { OfGarbling garbling.old.held result (λ g.
        ReturnsCodeAndSize result written.new (IsDealtFrom g index bits.now buffer.old buffer.new)
        (HasDealtFaultFrom g index bits.now (length buffer.old))) }
    ensures back { garbling.new ≡ garbling.old }
    ensures kept { result ≢ pos 0 → buffer.new ≡ buffer.old }
    ensures unreported { result ≢ pos 0 → result ≢ pos 61 → written.new ≡ written.old }
{
    if is_null(written) {
        return NULL_POINTER;
    }
    on_held!(garbling, Garbling(garbling) => {
        report(garbling.deal(alloc, InputBytes { index, bytes: bits }, buffer), written)
    })
}

/// Writes the label file of an input value, from labels that were received.
#[unsafe(no_mangle)]
pub extern "C" fn halfgates_label_file(
    alloc: Global,
    circuit: &mut Handle,
    index: u32,
    labels: &[u8],
    buffer: &mut [u8],
    written: &mut usize,
) -> i32
    requires written { Testable (as_mut_ptr written) }
    ensures answer { OfCircuit circuit.old.held result (λ c.
        ReturnsCodeAndSize result written.new
        (IsReceivedAt c index labels.now buffer.old buffer.new)
        (HasReceivedFault c index labels.now (length buffer.old))) }
    ensures back { circuit.new ≡ circuit.old }
    ensures kept { result ≢ pos 0 → buffer.new ≡ buffer.old }
    ensures unreported { result ≢ pos 0 → result ≢ pos 61 → written.new ≡ written.old }
{
    if is_null(written) {
        return NULL_POINTER;
    }
    on_held!(circuit, Circuit(circuit) => {
        report(circuit.label_file(alloc, InputBytes { index, bytes: labels }, buffer), written)
    })
}
