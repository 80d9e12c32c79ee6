//! Why a call has no result.

ghost use Rattle.std.specs.Prelude.{◌≡◌, ◌<◌};
ghost use Rattle.gc_kept.specs.Fault.{code_of};

use gc_circuit::ReadFault;
use gc_file::FileFault;
use gc_job::{BindFault, EvalFault};
use std::alloc::{AllocError, AllocFailed};

/// Why a call has no result: a fault of the layers below, one that has the number of such a fault, or one of those,
/// from 60 on, that only callers in other languages meet.
#[derive(Clone, Copy, Debug, PartialEq, Eq)]
pub enum KeptFault {
    /// A text is no circuit; or there is no memory for bits.
    Circuit(ReadFault),
    /// A byte of bits is neither 0 nor 1.
    BadDigit,
    /// There is not one bit for each wire.
    WrongLength,
    /// There is no memory for a garbling.
    Garbling,
    /// Bytes are no garbled file or label file.
    File(FileFault),
    /// Files are no job of the circuit; or the circuit has no such input value.
    Binding(BindFault),
    /// A job has no output bits.
    Evaluation(EvalFault),
    /// An argument is none that the call takes.
    BadArgument,
    /// A buffer has too little room.
    SmallBuffer,
    /// A buffer has too little room for a file, which has so many bytes.
    NeedsRoom(usize),
    /// There is no memory for what is kept.
    Memory,
    /// A label is neither of the two of its wire.
    WrongLabel,
    /// Bytes that are read have another number than the call takes.
    WrongSize,
    /// Row pairs are left to be made, or to be used.
    Unfinished,
    /// A circuit has no digest, which the call needs.
    NoDigest,
}

impl KeptFault {
    /// The number of the fault: that of the layer below, and from 60 on those that only callers in other languages
    /// meet.
    pub fn code(self) -> u32
        ensures code { result ≡ code_of self }
        ensures some { 0 < result }
        ensures few { result < 69 }
    {
        match self {
            KeptFault::Circuit(fault) => fault.code(),
            KeptFault::BadDigit => 15,
            KeptFault::WrongLength => 16,
            KeptFault::Garbling => 23,
            KeptFault::File(fault) => fault.code(),
            KeptFault::Binding(fault) => fault.code(),
            KeptFault::Evaluation(fault) => fault.code(),
            KeptFault::BadArgument => 60,
            KeptFault::SmallBuffer | KeptFault::NeedsRoom(_) => 61,
            KeptFault::Memory => 62,
            KeptFault::WrongLabel => 63,
            KeptFault::WrongSize => 66,
            KeptFault::Unfinished => 67,
            KeptFault::NoDigest => 68,
        }
    }
}

impl From<AllocError> for KeptFault {
    ghost use Rattle.std.specs.Prelude.{◌≡◌};
    ghost use Rattle.gc_kept.specs.declared.fault.KeptFault.TheVariants as faults;

    ghost from_gives = { λ _ e. e ≡ faults.Memory };

    fn from(_e: AllocError) -> KeptFault {
        KeptFault::Memory
    }
}

impl<T: Drop> From<AllocFailed<T>> for KeptFault {
    ghost use Rattle.std.specs.Prelude.{◌≡◌};
    ghost use Rattle.gc_kept.specs.declared.fault.KeptFault.TheVariants as faults;

    ghost from_gives = { λ _ e. e ≡ faults.Memory };

    fn from(_e: AllocFailed<T>) -> KeptFault {
        KeptFault::Memory
    }
}

impl From<FileFault> for KeptFault {
    ghost use Rattle.std.specs.Prelude.{◌≡◌};
    ghost use Rattle.gc_kept.specs.declared.fault.KeptFault.TheVariants as faults;

    ghost from_gives = { λ fault e. e ≡ faults.File fault };

    fn from(fault: FileFault) -> KeptFault {
        KeptFault::File(fault)
    }
}

impl From<BindFault> for KeptFault {
    ghost use Rattle.std.specs.Prelude.{◌≡◌};
    ghost use Rattle.gc_kept.specs.declared.fault.KeptFault.TheVariants as faults;

    ghost from_gives = { λ fault e. e ≡ faults.Binding fault };

    fn from(fault: BindFault) -> KeptFault {
        KeptFault::Binding(fault)
    }
}

impl From<EvalFault> for KeptFault {
    ghost use Rattle.std.specs.Prelude.{◌≡◌};
    ghost use Rattle.gc_kept.specs.declared.fault.KeptFault.TheVariants as faults;

    ghost from_gives = { λ fault e. e ≡ faults.Evaluation fault };

    fn from(fault: EvalFault) -> KeptFault {
        KeptFault::Evaluation(fault)
    }
}

impl From<ReadFault> for KeptFault {
    ghost use Rattle.std.specs.Prelude.{◌≡◌};
    ghost use Rattle.gc_kept.specs.declared.fault.KeptFault.TheVariants as faults;

    ghost from_gives = { λ fault e. e ≡ faults.Circuit fault };

    fn from(fault: ReadFault) -> KeptFault {
        KeptFault::Circuit(fault)
    }
}
