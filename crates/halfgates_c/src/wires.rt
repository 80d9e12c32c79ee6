//! The labels of wires.

ghost use Rattle.std.specs.Prelude.{◌≡◌, ◌≢◌, ◌+◌, ◌≤◌, ◌<◌, IfErr, OnErr, OnOk, length, pos};
ghost use Rattle.halfgates_c.specs.Holding.{OfGarbling};
ghost use Rattle.halfgates_c.specs.ReturnsCode.{ReturnsCode};
ghost use Rattle.halfgates_c.specs.WireLabels.{AreLabelsFrom, AreLabelsOn, AreWireLabels, HasWiresFault};

use crate::code::code_of;
use crate::handle::{Handle, on_held};
use gc_kept::{KeptFault, KeptGarbling};
use std::alloc::Global;

/// The labels of a wire: `halfgates_wire_labels`.
#[repr(C)]
#[derive(Clone, Copy)]
pub struct WireLabels {
    pub zero: [u8; 16],
    pub active: [u8; 16],
    pub bit: u8,
}

/// The labels of a wire that has this bit. That there is such a wire is the caller's condition.
fn labels_of(garbling: &KeptGarbling, wire: u32, bit: bool) -> WireLabels
    requires { wire < length garbling.now.garbling.zero_labels }
    ensures { AreWireLabels garbling.now wire bit result }
{
    let (zero, active) = garbling.labels_of(wire, bit);
    WireLabels {
        zero: zero.to_bytes(),
        active: active.to_bytes(),
        bit: u8::from(bit),
    }
}

/// Writes the labels of the wires from one on, for the bits on all wires. That there are such wires, and a bit for each
/// wire, are the caller's conditions.
fn write_wires(garbling: &KeptGarbling, all: &[bool], from: u32, labels: &mut [WireLabels])
    requires wires { from + length labels.old ≤ length garbling.now.garbling.zero_labels }
    requires bits { length all.now ≡ length garbling.now.garbling.zero_labels }
    requires few { length all.now < 4294967296 }
    ensures count { length labels.new ≡ length labels.old }
    ensures each { AreLabelsFrom garbling.now all.now from labels.new }
{
    for i in 0..labels.len() {
        let wire = from + i as u32;
        labels[i] = labels_of(garbling, wire, all[wire as usize]);
    }
}

/// The bits of all input wires, and the first wire of which labels are wanted.
#[derive(Clone, Copy)]
struct Wanted<'a> {
    bits: &'a [u8],
    from: u32,
}

/// Writes the labels of wires of a garbling, for the bits of all input wires.
fn write(
    alloc: Global,
    garbling: &KeptGarbling,
    wanted: Wanted<'_>,
    labels: &mut [WireLabels],
) -> Result<(), KeptFault>
    ensures ok { OnOk result
        (AreLabelsOn garbling.now wanted.entry.bits.now wanted.entry.from labels.new) }
    ensures count { length labels.new ≡ length labels.old }
    ensures fault { IfErr result (HasWiresFault garbling.now wanted.entry.bits.now
        wanted.entry.from (length labels.old)) }
    ensures unwritten { OnErr result (labels.new ≡ labels.old) }
{
    garbling.law_garbled();
    let Wanted { bits, from } = wanted;
    let circuit = garbling.circuit();
    let wires = circuit.circuit().wires() as usize;
    if from as usize > wires || labels.len() > wires - from as usize {
        return Err(KeptFault::BadArgument);
    }
    let all = circuit.wire_bits(alloc, bits)?;
    write_wires(garbling, &all, from, labels);
    Ok(())
}

/// Writes the labels of the wires from one on.
#[unsafe(no_mangle)]
pub extern "C" fn halfgates_labels(
    alloc: Global,
    garbling: &mut Handle,
    bits: &[u8],
    from: u32,
    labels: &mut [WireLabels],
) -> i32
    ensures answer { OfGarbling garbling.old.held result (λ g.
        ReturnsCode result (AreLabelsOn g bits.now from labels.new)
        (HasWiresFault g bits.now from (length labels.old))) }
    ensures count { length labels.new ≡ length labels.old }
    ensures kept { result ≢ pos 0 → labels.new ≡ labels.old }
    ensures back { garbling.new ≡ garbling.old }
{
    on_held!(garbling, Garbling(garbling) => {
        code_of(write(alloc, garbling, Wanted { bits, from }, labels))
    })
}
