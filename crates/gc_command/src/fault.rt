//! What can end a command early.

ghost use Rattle.std.specs.Prelude.{◌≡◌, Some};
ghost use Rattle.gc_netlist.specs.Names.{fault_name};
ghost use Rattle.gc_command.specs.Fault.{code_of, fault_text};

use gc_circuit::{Memory, ReadFault, ValueFault};
use gc_disk::FileError;
use gc_file::{FileFault, TakeFault, WriteFault};
use gc_job::{BindFault, EvalFault};
use gc_label::BadSeed;
use gc_netlist::fault_name;
use gc_work::WorkFault;
use std::alloc::{AllocError, AllocFailed};
use std::error::Error;
use std::fmt;

/// Why a command has no result: the first fault that its work meets.
#[derive(Clone, Copy, Debug, PartialEq, Eq)]
pub enum Fault {
    /// The file is no circuit, or there is no memory for reading or evaluating it.
    Circuit(ReadFault),
    /// There are not as many values as the circuit has input values.
    WrongCount,
    /// A text is no value of its input value's width, or there is no memory for its bits.
    Value(ValueFault),
    /// The seed is not 64 hexadecimal digits.
    BadSeed,
    /// The circuit has no input value of this index.
    NoSuchValue,
    /// The number of workers is wrong, or there is no memory for garbling.
    Garbling(WorkFault),
    /// A file is no garbled file, or no label file, or there is no memory for its parts.
    File(FileFault),
    /// The garbled file and the label files are no job for the circuit, or there is no memory for the job.
    Binding(BindFault),
    /// The number of workers is wrong, an output label isn't recognised, or there is no memory for evaluating.
    Evaluation(EvalFault),
    /// The list of jobs is not UTF-8, or has too many jobs.
    BadList,
    /// A file can't be read.
    CannotRead,
    /// A file, or standard output, can't be written.
    CannotWrite,
    /// There is no memory for the program's own buffers, a file's bytes among them.
    Memory,
}

impl Fault {
    /// The number of the fault, as users see it.
    pub fn code(self) -> u32
        ensures { result ≡ code_of self }
    {
        match self {
            Fault::Circuit(fault) => fault.code(),
            Fault::WrongCount => 14,
            Fault::Value(fault) => fault.code(),
            Fault::BadSeed => 18,
            Fault::NoSuchValue => 42,
            Fault::Garbling(fault) => fault.code(),
            Fault::File(fault) => fault.code(),
            Fault::Binding(fault) => fault.code(),
            Fault::Evaluation(fault) => fault.code(),
            Fault::BadList => 53,
            Fault::CannotRead => 50,
            Fault::CannotWrite => 51,
            Fault::Memory => 52,
        }
    }

    /// The name of the fault, as users see it.
    pub fn name(self) -> &'static str
        ensures { result.now ≡ fault_name (code_of self) }
    {
        fault_name(self.code())
    }
}

/// Writes `fault`, the number and the name.
impl fmt::Display for Fault {
    ghost output = { λ fault. Some (fault_text fault) };

    fn fmt<W: fmt::Write>(&self, f: &mut fmt::Formatter<W>) -> fmt::Result {
        let code = self.code();
        let name = self.name();
        write!(f, "fault {code} {name}")
    }
}

impl Error for Fault {}

impl From<ReadFault> for Fault {
    ghost use Rattle.std.specs.Prelude.{◌≡◌};
    ghost use Rattle.gc_command.specs.declared.fault.Fault.TheVariants as faults;

    ghost from_gives = { λ fault e. e ≡ faults.Circuit fault };

    fn from(fault: ReadFault) -> Fault {
        Fault::Circuit(fault)
    }
}

/// There is no memory for what is made of a circuit.
impl From<Memory> for Fault {
    ghost use Rattle.std.specs.Prelude.{◌≡◌};
    ghost use Rattle.gc_netlist.specs.declared.fault.ReadFault.TheVariants as read;
    ghost use Rattle.gc_command.specs.declared.fault.Fault.TheVariants as faults;

    ghost from_gives = { λ _ e. e ≡ faults.Circuit read.Memory };

    fn from(_memory: Memory) -> Fault {
        Fault::Circuit(ReadFault::Memory)
    }
}

impl From<ValueFault> for Fault {
    ghost use Rattle.std.specs.Prelude.{◌≡◌};
    ghost use Rattle.gc_command.specs.declared.fault.Fault.TheVariants as faults;

    ghost from_gives = { λ fault e. e ≡ faults.Value fault };

    fn from(fault: ValueFault) -> Fault {
        Fault::Value(fault)
    }
}

impl From<BadSeed> for Fault {
    ghost use Rattle.std.specs.Prelude.{◌≡◌};
    ghost use Rattle.gc_command.specs.declared.fault.Fault.TheVariants as faults;

    ghost from_gives = { λ _ e. e ≡ faults.BadSeed };

    fn from(_e: BadSeed) -> Fault {
        Fault::BadSeed
    }
}

impl From<FileFault> for Fault {
    ghost use Rattle.std.specs.Prelude.{◌≡◌};
    ghost use Rattle.gc_command.specs.declared.fault.Fault.TheVariants as faults;

    ghost from_gives = { λ fault e. e ≡ faults.File fault };

    fn from(fault: FileFault) -> Fault {
        Fault::File(fault)
    }
}

/// A file whose source failed can't be read.
impl From<TakeFault> for Fault {
    ghost use Rattle.gc_command.specs.Fault.{IsFaultOfTaking};

    ghost from_gives = { IsFaultOfTaking };

    fn from(fault: TakeFault) -> Fault {
        match fault {
            TakeFault::File(fault) => Fault::File(fault),
            TakeFault::ReadFault { .. } => Fault::CannotRead,
        }
    }
}

impl From<BindFault> for Fault {
    ghost use Rattle.std.specs.Prelude.{◌≡◌};
    ghost use Rattle.gc_command.specs.declared.fault.Fault.TheVariants as faults;

    ghost from_gives = { λ fault e. e ≡ faults.Binding fault };

    fn from(fault: BindFault) -> Fault {
        Fault::Binding(fault)
    }
}

impl From<EvalFault> for Fault {
    ghost use Rattle.std.specs.Prelude.{◌≡◌};
    ghost use Rattle.gc_command.specs.declared.fault.Fault.TheVariants as faults;

    ghost from_gives = { λ fault e. e ≡ faults.Evaluation fault };

    fn from(fault: EvalFault) -> Fault {
        Fault::Evaluation(fault)
    }
}

impl From<WorkFault> for Fault {
    ghost use Rattle.std.specs.Prelude.{◌≡◌};
    ghost use Rattle.gc_command.specs.declared.fault.Fault.TheVariants as faults;

    ghost from_gives = { λ fault e. e ≡ faults.Garbling fault };

    fn from(fault: WorkFault) -> Fault {
        Fault::Garbling(fault)
    }
}

impl From<FileError> for Fault {
    ghost use Rattle.gc_command.specs.Fault.{IsFaultOfFile};

    ghost from_gives = { IsFaultOfFile };

    fn from(error: FileError) -> Fault {
        match error {
            FileError::CannotRead => Fault::CannotRead,
            FileError::CannotWrite => Fault::CannotWrite,
            FileError::Memory => Fault::Memory,
        }
    }
}

/// A file whose sink failed can't be written.
impl From<WriteFault> for Fault {
    ghost use Rattle.std.specs.Prelude.{◌≡◌};
    ghost use Rattle.gc_command.specs.declared.fault.Fault.TheVariants as faults;

    ghost from_gives = { λ _ e. e ≡ faults.CannotWrite };

    fn from(_fault: WriteFault) -> Fault {
        Fault::CannotWrite
    }
}

impl From<AllocError> for Fault {
    ghost use Rattle.std.specs.Prelude.{◌≡◌};
    ghost use Rattle.gc_command.specs.declared.fault.Fault.TheVariants as faults;

    ghost from_gives = { λ _ e. e ≡ faults.Memory };

    fn from(_e: AllocError) -> Fault {
        Fault::Memory
    }
}

impl<T: Drop> From<AllocFailed<T>> for Fault {
    ghost use Rattle.std.specs.Prelude.{◌≡◌};
    ghost use Rattle.gc_command.specs.declared.fault.Fault.TheVariants as faults;

    ghost from_gives = { λ _ e. e ≡ faults.Memory };

    fn from(_e: AllocFailed<T>) -> Fault {
        Fault::Memory
    }
}
