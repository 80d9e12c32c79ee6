//! The faults of binding a job and of evaluating it.

ghost use Rattle.std.specs.Prelude.{◌≡◌};
ghost use Rattle.gc_netlist.specs.Names.{fault_name};
ghost use Rattle.gc_job.specs.Fault.{bind_code_of, eval_code_of};

use gc_circuit::Memory;
use gc_netlist::fault_name;
use std::alloc::{AllocError, AllocFailed};
use std::error::Error;
use std::fmt;

/// Why a garbled file and label files are no job for a circuit: the first fault that holds, in the order below. That of
/// a label file is the first of the first file that has one. `Memory` replaces a later fault, or the job, only where an
/// allocation was refused.
#[derive(Clone, Copy, Debug, PartialEq, Eq)]
pub enum BindFault {
    /// The garbled file has the digest of another circuit.
    OtherCircuit,
    /// The garbled file has not a row pair for each AND gate and a decode bit for each output wire.
    OtherCounts,
    /// A label file is for an input value that the circuit does not have.
    NoSuchValue,
    /// A label file has not a label for each wire of its input value.
    WrongWidth,
    /// A label file is for an input value that a file before it is for.
    DoubleValue,
    /// No label file is for an input value.
    MissingValue,
    /// Memory ran out.
    Memory,
}

impl BindFault {
    /// The number of the fault, from 40 to 46.
    pub fn code(self) -> u32
        ensures { result ≡ bind_code_of self }
    {
        match self {
            BindFault::OtherCircuit => 40,
            BindFault::OtherCounts => 41,
            BindFault::NoSuchValue => 42,
            BindFault::WrongWidth => 43,
            BindFault::DoubleValue => 44,
            BindFault::MissingValue => 45,
            BindFault::Memory => 46,
        }
    }

    /// The name of the fault, as users see it.
    pub fn name(self) -> &'static str
        ensures { result.now ≡ fault_name (bind_code_of self) }
    {
        fault_name(self.code())
    }
}

/// Writes the name.
impl fmt::Display for BindFault {
    ghost use Rattle.std.specs.Prelude.{Some};

    ghost output = { λ fault. Some (fault_name (bind_code_of fault)) };

    fn fmt<W: fmt::Write>(&self, f: &mut fmt::Formatter<W>) -> fmt::Result {
        f.write_str(self.name())
    }
}

impl Error for BindFault {}

impl From<AllocError> for BindFault {
    ghost use Rattle.std.specs.Prelude.{◌≡◌};
    ghost use Rattle.gc_job.specs.declared.fault.BindFault.TheVariants as faults;

    ghost from_gives = { λ _ e. e ≡ faults.Memory };

    fn from(_e: AllocError) -> BindFault {
        BindFault::Memory
    }
}

/// Why a job has no output bits. `Memory` replaces the result only where an allocation was refused.
#[derive(Clone, Copy, Debug, PartialEq, Eq)]
pub enum EvalFault {
    /// The number of workers is 0 or above [`MAX_WORKERS`](gc_workers::MAX_WORKERS). Evaluation on one thread never
    /// gives it.
    BadWorkers,
    /// The garbled file does not recognise the active label of this output wire, counted from 0 among the output wires:
    /// the first such wire.
    UnknownOutputLabel {
        /// The place of the output wire among the output wires.
        output: u32,
    },
    /// Memory ran out.
    Memory,
}

impl EvalFault {
    /// The number of the fault: 22, 48, or 46 for memory.
    pub fn code(self) -> u32
        ensures { result ≡ eval_code_of self }
    {
        match self {
            EvalFault::BadWorkers => 22,
            EvalFault::UnknownOutputLabel { .. } => 48,
            EvalFault::Memory => 46,
        }
    }

    /// The name of the fault, as users see it.
    pub fn name(self) -> &'static str
        ensures { result.now ≡ fault_name (eval_code_of self) }
    {
        fault_name(self.code())
    }
}

/// Writes the name.
impl fmt::Display for EvalFault {
    ghost use Rattle.std.specs.Prelude.{Some};

    ghost output = { λ fault. Some (fault_name (eval_code_of fault)) };

    fn fmt<W: fmt::Write>(&self, f: &mut fmt::Formatter<W>) -> fmt::Result {
        f.write_str(self.name())
    }
}

impl Error for EvalFault {}

impl From<Memory> for EvalFault {
    ghost use Rattle.std.specs.Prelude.{◌≡◌};
    ghost use Rattle.gc_job.specs.declared.fault.EvalFault.TheVariants as faults;

    ghost from_gives = { λ _ e. e ≡ faults.Memory };

    fn from(_e: Memory) -> EvalFault {
        EvalFault::Memory
    }
}

impl From<AllocError> for EvalFault {
    ghost use Rattle.std.specs.Prelude.{◌≡◌};
    ghost use Rattle.gc_job.specs.declared.fault.EvalFault.TheVariants as faults;

    ghost from_gives = { λ _ e. e ≡ faults.Memory };

    fn from(_e: AllocError) -> EvalFault {
        EvalFault::Memory
    }
}

impl<T: Drop> From<AllocFailed<T>> for EvalFault {
    ghost use Rattle.std.specs.Prelude.{◌≡◌};
    ghost use Rattle.gc_job.specs.declared.fault.EvalFault.TheVariants as faults;

    ghost from_gives = { λ _ e. e ≡ faults.Memory };

    fn from(_e: AllocFailed<T>) -> EvalFault {
        EvalFault::Memory
    }
}
