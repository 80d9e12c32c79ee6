//! Many garblings of one circuit.

ghost use Rattle.std.specs.Prelude.{◌≡◌, ◌≢◌, IfErr, IfOk, OnErr, OnOk, length, pos};
ghost use Rattle.std.specs.List.{AllZip};
ghost use Rattle.halfgates_c.specs.ReturnsCode.{ReturnsCode};
ghost use Rattle.halfgates_c.specs.Holding.{OfKept};
ghost use Rattle.halfgates_c.specs.Reading.{HasManyFault, HoldsGarbling, HoldsThis};

use crate::code::code_of;
use crate::handle::{Handle, on_held};
use crate::slot::Slot;
use gc_kept::{Held, KeptCircuit, KeptFault, KeptGarbling};
use std::alloc::Global;
use std::mem;

/// A handle of each garbling.
fn handles_of(
    alloc: Global,
    garblings: Vec<KeptGarbling, Global>,
) -> Result<Vec<Slot, Global>, KeptFault>
    ensures ok { IfOk result (λ handles.
        AllZip HoldsThis garblings.items handles.items) }
    ensures fault { IfErr result (λ fault. fault ≡ KeptFault.Memory) }
{
    let mut handles = Vec::with_capacity(alloc, garblings.len())?;
    for garbling in garblings {
        handles.push(Slot::holding(alloc, Held::Garbling(garbling))?)?;
    }
    Ok(handles)
}

/// Writes each handle to the place of C's pointer. What was there isn't looked at. That there are as many places is the
/// caller's condition.
fn give(mut handles: Vec<Slot, Global>, slots: &mut [Slot])
    requires { length slots.old ≡ length handles.items }
    ensures { slots.new ≡ handles.items }
{
    while let Some(handle) = handles.pop() {
        let place = handles.len();
        mem::forget(mem::replace(&mut slots[place], handle));
    }
}

/// Seeds to garble under, one after another or two at a time.
#[derive(Clone, Copy)]
struct Seeds<'a> {
    all: &'a [[u8; 32]],
    side_by_side: bool,
}

/// Garbles a circuit under each seed, and hands the garblings out: all of them or none.
fn garble_many(
    alloc: Global,
    circuit: &KeptCircuit,
    seeds: Seeds<'_>,
    slots: &mut [Slot],
) -> Result<(), KeptFault>
    ensures ok { OnOk result (AllZip (HoldsGarbling circuit.now) seeds.entry.all.now slots.new) }
    ensures fault { IfErr result (HasManyFault (length seeds.entry.all.now) (length slots.old)) }
    ensures kept { OnErr result (slots.new ≡ slots.old) }
{
    if slots.len() != seeds.all.len() {
        return Err(KeptFault::BadArgument);
    }
    let garblings = circuit.garble_many(alloc, seeds.all, seeds.side_by_side)?;
    let handles = handles_of(alloc, garblings)?;
    give(handles, slots);
    Ok(())
}

/// Garbles a circuit under each of these seeds, two at a time where `side_by_side` isn't 0.
#[unsafe(no_mangle)]
pub extern "C" fn halfgates_garble_many(
    alloc: Global,
    circuit: &mut Handle,
    seeds: &[[u8; 32]],
    side_by_side: i32,
    garblings: &mut [Slot],
) -> i32
    ensures answer { OfKept circuit.old.held result (λ c.
        ReturnsCode result (AllZip (HoldsGarbling c) seeds.now garblings.new)
        (HasManyFault (length seeds.now) (length garblings.old))) }
    ensures back { circuit.new ≡ circuit.old }
    ensures kept { result ≢ pos 0 → garblings.new ≡ garblings.old }
{
    let seeds = Seeds {
        all: seeds,
        side_by_side: side_by_side != 0,
    };
    on_held!(circuit, Circuit(circuit) => {
        code_of(garble_many(alloc, circuit, seeds, garblings))
    })
}
