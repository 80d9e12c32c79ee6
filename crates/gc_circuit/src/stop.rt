ghost use Rattle.std.specs.Prelude.{◌≡◌, Some, None};
ghost use Rattle.gc_netlist.specs.Met.{back_of};

use gc_netlist::ReadFault;
use std::alloc::{AllocError, AllocFailed};

/// Why reading stops, and where: how many tokens the place comes before those that are left, the gate that is read
/// there, and the wire that the fault is about.
#[derive(Clone, Copy, Debug)]
pub(crate) struct Stop {
    pub(crate) fault: ReadFault,
    pub(crate) back: usize,
    pub(crate) gate: Option<u32>,
    pub(crate) wire: Option<u32>,
}

/// How many tokens the place of a fault that is about no wire comes before those that are left.
pub(crate) fn back_of(fault: ReadFault) -> usize
    ensures { result ≡ back_of fault }
{
    match fault {
        ReadFault::TooLarge
        | ReadFault::BadShape
        | ReadFault::UnknownOperation
        | ReadFault::WidthsExceedWires => 1,
        ReadFault::BadConstant => 3,
        _ => 0,
    }
}

impl Stop {
    /// A fault that is found in this gate and is about no wire.
    #[cold]
    pub(crate) fn in_gate(fault: ReadFault, gate: u32) -> Stop
        ensures { (result.fault ≡ fault) × (result.back ≡ back_of fault)
            × (result.gate ≡ Some gate) × (result.wire ≡ None) }
    {
        Stop {
            fault,
            back: back_of(fault),
            gate: Some(gate),
            wire: None,
        }
    }
}

/// A fault that is found in no gate.
impl From<ReadFault> for Stop {
    ghost use Rattle.std.specs.Prelude.{◌≡◌, None};
    ghost use Rattle.gc_netlist.specs.Met.{back_of};

    ghost from_gives = { λ e s.
        (s.fault ≡ e) × (s.back ≡ back_of e) × (s.gate ≡ None) × (s.wire ≡ None) };

    #[cold]
    fn from(fault: ReadFault) -> Stop {
        Stop {
            fault,
            back: back_of(fault),
            gate: None,
            wire: None,
        }
    }
}

impl From<AllocError> for Stop {
    ghost use Rattle.gc_circuit.specs.Stop.{IsRefused};

    ghost from_gives = { λ _ s. IsRefused s.fault s.gate s.wire };

    fn from(_e: AllocError) -> Stop {
        Stop::from(ReadFault::Memory)
    }
}

impl<T: Drop> From<AllocFailed<T>> for Stop {
    ghost use Rattle.gc_circuit.specs.Stop.{IsRefused};

    ghost from_gives = { λ _ s. IsRefused s.fault s.gate s.wire };

    fn from(_e: AllocFailed<T>) -> Stop {
        Stop::from(ReadFault::Memory)
    }
}
