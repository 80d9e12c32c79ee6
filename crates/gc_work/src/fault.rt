//! Why there is no garbling.

ghost use Rattle.std.specs.Prelude.{◌≡◌, IfErr, OnOk};
ghost use Rattle.gc_netlist.specs.Names.{fault_name};
ghost use Rattle.gc_workers.specs.Workers.{AreFew};
ghost use Rattle.gc_work.specs.WorkFault.{HasWorkFault, code_of};

use gc_circuit::Memory;
use gc_netlist::fault_name;
use gc_workers::MAX_WORKERS;
use std::error::Error;
use std::fmt;

/// Why there is no garbling.
#[derive(Clone, Copy, PartialEq, Eq, Debug)]
pub enum WorkFault {
    /// The number of workers is 0 or above [`MAX_WORKERS`].
    BadWorkers,
    /// Memory ran out.
    Memory,
}

impl WorkFault {
    /// The number of the fault: 22 or 23.
    pub fn code(self) -> u32
        ensures { result ≡ code_of self }
    {
        match self {
            WorkFault::BadWorkers => 22,
            WorkFault::Memory => 23,
        }
    }

    /// The name of the fault.
    pub fn name(self) -> &'static str
        ensures { result.now ≡ fault_name (code_of self) }
    {
        fault_name(self.code())
    }
}

/// Refuses 0 workers and more than [`MAX_WORKERS`].
pub(crate) fn check_workers(workers: u32) -> Result<(), WorkFault>
    ensures few { OnOk result (AreFew workers) }
    ensures refused { IfErr result (λ fault.
        (fault ≡ WorkFault.BadWorkers) × HasWorkFault workers fault) }
{
    if workers == 0 || workers > MAX_WORKERS {
        return Err(WorkFault::BadWorkers);
    }
    Ok(())
}

impl fmt::Display for WorkFault {
    ghost use Rattle.std.specs.Prelude.{Some};

    ghost output = { λ fault. Some (fault_name (code_of fault)) };

    fn fmt<W: fmt::Write>(&self, f: &mut fmt::Formatter<W>) -> fmt::Result {
        f.write_str(self.name())
    }
}

impl Error for WorkFault {}

impl From<Memory> for WorkFault {
    ghost use Rattle.std.specs.Prelude.{◌≡◌};
    ghost use Rattle.gc_work.specs.declared.fault.WorkFault.TheVariants as faults;

    ghost from_gives = { λ _ e. e ≡ faults.Memory };

    fn from(_e: Memory) -> WorkFault {
        WorkFault::Memory
    }
}
