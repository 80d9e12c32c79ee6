//! Where a text is at fault.

ghost use Rattle.std.specs.Prelude.{◌≡◌, ◌≢◌, pos};
ghost use Rattle.core.specs.Ptr.{as_mut_ptr};
ghost use denote.RawPtr.{Testable};
ghost use Rattle.halfgates_c.specs.ReturnsCode.{ReturnsCode};
ghost use Rattle.halfgates_c.specs.Places.{IsFaultPlace, IsPlaceIn, IsTextMemory};

use crate::code::{NULL_POINTER, OK, code_of};
use crate::null::is_null;
use gc_circuit::{Circuit, Located, ReadFault};
use gc_kept::KeptFault;
use std::alloc::Global;

/// Stands for a gate or a wire where there is none: `HALFGATES_NONE`.
pub(crate) const NONE: u32 = 4_294_967_295;

/// Where a text is at fault: `halfgates_place`.
#[repr(C)]
#[derive(Clone, Copy)]
pub struct Place {
    pub fault: i32,
    pub gate: u32,
    pub wire: u32,
    pub line: u64,
    pub column: u64,
}

/// The place of what is found.
fn place_of(found: Option<Located>) -> Place
    ensures { IsFaultPlace found result }
{
    match found {
        Some(at) => Place {
            fault: KeptFault::Circuit(at.fault).code() as i32,
            gate: at.gate.unwrap_or(NONE),
            wire: at.wire.unwrap_or(NONE),
            line: at.line,
            column: at.column,
        },
        None => Place {
            fault: 0,
            gate: NONE,
            wire: NONE,
            line: 0,
            column: 0,
        },
    }
}

/// Writes where the first fault of a text is.
#[unsafe(no_mangle)]
pub extern "C" fn halfgates_locate(alloc: Global, text: &[u8], place: &mut Place) -> i32
    requires place { Testable (as_mut_ptr place) }
    ensures answers { ReturnsCode result (IsPlaceIn text.now place.new) IsTextMemory }
    ensures kept { result ≢ pos 0 → place.new ≡ place.old }
{
    if is_null(place) {
        return NULL_POINTER;
    }
    match Circuit::locate(alloc, text) {
        Ok(found) => {
            *place = place_of(found);
            OK
        }
        Err(_) => code_of(Err(KeptFault::Circuit(ReadFault::Memory))),
    }
}
