//! The tables that a store begins with.

ghost use Rattle.std.specs.Prelude.{IfOk};
ghost use Rattle.gc_store.specs.Beginning.{Begins, Queues, Tabulates};

use crate::queue::Queue;
use crate::tables::opening_countdowns;
use gc_circuit::{Circuit, Memory};
use gc_half::{NO_ROWS, RowPair, Table, and_numbers, input_zero_labels};
use gc_label::{Label, Seed};
use std::alloc::Allocator;
use std::marker::Model;
use std::thread;
use std::thread::Threads;

/// The tables of a store, but for the readers of its wires.
#[derive(Drop)]
pub(crate) struct Beginning<A: Allocator> {
    pub queue: Queue<A>,
    pub tables: LabelTables<A>,
}

/// The tables that aren't the queue's.
#[derive(Drop)]
pub(crate) struct LabelTables<A: Allocator> {
    // By gate.
    pub and_numbers: Vec<u32, A>,
    // By wire.
    pub zero_labels: Vec<Label, A>,
    // By AND number.
    pub rows: Table<RowPair, A>,
}

impl<A: Allocator> Model for Beginning<A> {
    ghost use Rattle.gc_store.specs.Beginning.{FirstTables};

    ghost Value = { FirstTables };

    ghost view = { λ t. record {
      marks = t.queue.marks;
      countdowns = t.queue.countdowns;
      and_numbers = t.tables.and_numbers.items;
      zero_labels = t.tables.zero_labels.items;
      rows = t.tables.rows;
    } };
}

impl<A: Allocator + Copy> LabelTables<A> {
    /// The tables for a circuit and a seed, where no gate is finished.
    fn of<C: Allocator>(
        alloc: A,
        circuit: &Circuit<C>,
        seed: &Seed,
    ) -> Result<LabelTables<A>, Memory>
        ensures { IfOk result
            (λ t. Tabulates circuit.now seed.now t.and_numbers.items t.zero_labels.items t.rows) }
    {
        Ok(LabelTables {
            and_numbers: and_numbers(alloc, circuit)?,
            zero_labels: input_zero_labels(alloc, circuit, seed)?,
            rows: Table::open(alloc, NO_ROWS, circuit.and_count())?,
        })
    }
}

/// The queue of a circuit where every gate is free.
fn opening_queue<A: Allocator + Copy, C: Allocator>(
    alloc: A,
    circuit: &Circuit<C>,
) -> Result<Queue<A>, Memory>
    ensures { IfOk result (λ q. Queues circuit.now q.marks q.countdowns) }
{
    // The gates fit in a u32.
    circuit.law_lawful();
    let queue = Queue::open(alloc, opening_countdowns(alloc, circuit)?)?;
    Ok(queue)
}

impl<A: Allocator + Copy> Beginning<A> {
    /// The tables for a circuit and a seed, where every gate is free. It takes all their memory.
    pub(crate) fn of<C: Allocator>(
        alloc: A,
        circuit: &Circuit<C>,
        seed: &Seed,
    ) -> Result<Beginning<A>, Memory>
        ensures { IfOk result (Begins circuit.now seed.now) }
    {
        Ok(Beginning {
            queue: opening_queue(alloc, circuit)?,
            tables: LabelTables::of(alloc, circuit, seed)?,
        })
    }
}

impl<A: Allocator + Copy + Send + Sync> Beginning<A> {
    /// The same, by two threads where another can be started.
    pub(crate) fn by_two<C: Allocator + Sync, R: Threads>(
        rt: &R,
        alloc: A,
        circuit: &Circuit<C>,
        seed: &Seed,
    ) -> Result<Beginning<A>, Memory>
        ensures { IfOk result (Begins circuit.now seed.now) }
    {
        let (queue, tables) = thread::join(
            rt,
            || -> Result<Queue<A>, Memory>
                ensures { IfOk result (λ q. Queues circuit.entry.now q.marks q.countdowns) }
            { opening_queue(alloc, circuit) },
            || -> Result<LabelTables<A>, Memory>
                ensures { IfOk result (λ t.
                    Tabulates circuit.entry.now seed.entry.now t.and_numbers.items
                    t.zero_labels.items t.rows) }
            { LabelTables::of(alloc, circuit, seed) },
        );
        Ok(Beginning {
            queue: queue?,
            tables: tables?,
        })
    }
}
