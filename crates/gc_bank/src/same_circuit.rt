//! Whether jobs are on one circuit.

ghost use Rattle.std.specs.Prelude.{◌↔◌, length, IsTrue};
ghost use Rattle.gc_bank.specs.Jobs.{AreOnOneCircuit, AreOn};

use gc_circuit::Circuit;
use gc_job::Job;
use std::alloc::Allocator;

/// Whether the circuits of these jobs are all equal. It doesn't allocate.
pub fn one_circuit<A: Allocator, C: Allocator>(jobs: &[Job<'_, A, C>]) -> bool
    ensures { IsTrue result ↔ AreOnOneCircuit jobs.now }
{
    match jobs.first() {
        Some(first) => are_on(first.circuit(), jobs),
        None => true,
    }
}

/// Whether the circuit of each job is equal to this one.
fn are_on<A: Allocator, C: Allocator>(circuit: &Circuit<C>, jobs: &[Job<'_, A, C>]) -> bool
    ensures { IsTrue result ↔ AreOn circuit.now jobs.now (length jobs.now) }
{
    for job in jobs {
        if !job.circuit().equals(circuit) {
            return false;
        }
    }
    true
}
