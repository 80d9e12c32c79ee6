//! A circuit's garbling, as commands make it.

ghost use Rattle.std.specs.Prelude.{IfOk};
ghost use Rattle.gc_half.specs.Garbling.{IsGarbled};
ghost use Rattle.gc_work.specs.WorkFault.{JudgesWorkers};

use crate::context::Context;
use crate::progress::{Progress, Stage};
use gc_circuit::Circuit;
use gc_half::Garbling;
use gc_label::Seed;
use gc_work::WorkFault;
use gc_workers::Open;
use std::alloc::Allocator;
use std::sync::Wait;
use std::thread::Threads;

/// The garbling of a circuit under a seed with this many workers: step 2 of 3 of a command.
pub(crate) fn garble<R: Threads + Wait + Sync, A: Allocator + Copy + Send + Sync, P: Progress>(
    context: &Context<'_, R, A, P>,
    circuit: &Circuit<A>,
    seed: &Seed,
    workers: u32,
) -> Result<Garbling<A>, WorkFault>
    ensures garbled { IfOk result (IsGarbled circuit.now seed.now) }
    ensures workers { JudgesWorkers workers result }
{
    let gates = circuit.gates();
    context.progress.begin(2, 3, Stage::Garbling { gates });
    gc_work::garble(context.rt, context.alloc, circuit, seed, workers, &Open)
}
