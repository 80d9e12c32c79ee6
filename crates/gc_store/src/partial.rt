//! How far each gate of a circuit is under a seed.

ghost use Rattle.std.specs.Prelude.{◌≡◌, ◌↔◌, ◌<◌, ◌^◌, ℕ, IsTrue, IfOk, IfErr, count_by};
ghost use Rattle.gc_half.specs.Garbling.{IsGarbled};
ghost use Rattle.gc_store.specs.Content.{is_claimed, is_finished, IsClaimed, AllFinished, IsLawfulContent, opened};
ghost use Rattle.gc_store.specs.Step.{IsOwnTask, with_sealed, Claims, ClaimsSome, Finishes, ReopensClaimed};
ghost use Rattle.gc_store.specs.Readers.{IsLinked};
ghost use Rattle.gc_store.specs.Beginning.{Begins};
ghost use Rattle.gc_store.specs.Kept.{ReadsKnown};

use crate::batch::Batch;
use crate::beginning::{Beginning, LabelTables};
use crate::queue::Queue;
use crate::readers::Readers;
use crate::refusal::Refused;
use crate::task::{Sealed, Task};
use gc_circuit::{Circuit, Memory};
use gc_half::{Garbling, RowPair, Table, labels_read};
use gc_label::{Label, Offset, Seed, offset};
use std::alloc::{Allocator, Global};
use std::marker::Model;
use std::thread;
use std::thread::Threads;

/// An opening by many threads: of a copy of this circuit under this seed, by up to this many.
#[derive(Drop)]
pub struct Opening<'c, C: Allocator = Global> {
    pub circuit: &'c Circuit<C>,
    pub seed: Seed,
    pub threads: u32,
}

/// From this many threads on, the four parts of an opening go side by side.
const FOUR: u32 = 4;

/// The gates of a circuit under a seed, and how far each is: free, claimed, or finished with its zero label
/// and its rows. What it keeps of a finished gate is the half-gate garbling of that gate.
///
/// [`PartialGarbling::open`] takes all its memory, and no later call takes any.
#[derive(Drop)]
pub(crate) struct PartialGarbling<A: Allocator = Global> {
    circuit: Circuit<A>,
    seed: Seed,
    offset: Offset,
    // How far each gate is, and which are ready.
    queue: Queue<A>,
    readers: Readers<A>,
    // By gate.
    and_numbers: Vec<u32, A>,
    // By wire.
    zero_labels: Vec<Label, A>,
    // By AND number.
    rows: Table<RowPair, A>,
    finished: u32,
    finished_ands: u32,
}

/// A circuit, and the readers of its wires.
#[derive(Drop)]
struct LinkedCircuit<A: Allocator> {
    circuit: Circuit<A>,
    readers: Readers<A>,
}

impl<A: Allocator> Model for PartialGarbling<A> {
    ghost use Rattle.gc_store.specs.Content.{Content};

    ghost Value = { Content };

    ghost use Rattle.gc_store.specs.Kept.{content_of, IsStored};
    ghost use Rattle.gc_store.specs.Fields.{tables_of};

    ghost view = { λ s. content_of s.circuit s.seed (tables_of s) };

    ghost invariant = { λ s. IsStored s.circuit s.seed s.offset (tables_of s) };
}

impl<A: Allocator> PartialGarbling<A> {
    /// This circuit and seed with every gate free, from its tables.
    fn of(
        circuit: Circuit<A>,
        seed: Seed,
        readers: Readers<A>,
        tables: Beginning<A>,
    ) -> PartialGarbling<A>
        requires readers { IsLinked circuit readers.firsts readers.nexts }
        requires tables { Begins circuit seed tables }
        ensures { result ≡ opened circuit seed }
    {
        let Beginning { queue, tables } = tables;
        let LabelTables {
            and_numbers,
            zero_labels,
            rows,
        } = tables;
        PartialGarbling {
            offset: offset(&seed),
            circuit,
            seed,
            queue,
            readers,
            and_numbers,
            zero_labels,
            rows,
            finished: 0,
            finished_ands: 0,
        }
    }
}

impl<A: Allocator + Copy> PartialGarbling<A> {
    /// This circuit and seed with every gate free. It allocates all memory that is needed.
    pub(crate) fn open(
        alloc: A,
        circuit: Circuit<A>,
        seed: Seed,
    ) -> Result<PartialGarbling<A>, Memory>
        ensures { IfOk result (λ s. s ≡ opened circuit seed) }
    {
        let tables = Beginning::of(alloc, &circuit, &seed)?;
        let readers = Readers::of(alloc, &circuit)?;
        Ok(PartialGarbling::of(circuit, seed, readers, tables))
    }
}

impl<A: Allocator + Copy + Send + Sync> PartialGarbling<A> {
    /// A copy of the circuit and the seed with every gate free, where the threads can be started.
    pub(crate) fn open_by<C: Allocator + Sync, R: Threads + Sync>(
        rt: &R,
        alloc: A,
        opening: &Opening<'_, C>,
    ) -> Result<PartialGarbling<A>, Memory>
        ensures { IfOk result (λ s. s ≡ opened opening.now.circuit.now opening.now.seed) }
    {
        let (circuit, seed, threads) = (opening.circuit, opening.seed, opening.threads);
        let (linked, tables) = thread::join(
            rt,
            || -> Result<LinkedCircuit<A>, Memory>
                ensures copy { IfOk result (λ l. l.circuit ≡ circuit.entry.now) }
                ensures readers { IfOk result (λ l.
                    IsLinked l.circuit l.readers.firsts l.readers.nexts) }
            { linked_copy(rt, alloc, circuit, threads) },
            || -> Result<Beginning<A>, Memory>
                ensures { IfOk result (Begins circuit.entry.now seed) }
            {
                if threads < FOUR {
                    Beginning::of(alloc, circuit, &seed)
                } else {
                    Beginning::by_two(rt, alloc, circuit, &seed)
                }
            },
        );
        let LinkedCircuit { circuit, readers } = linked?;
        Ok(PartialGarbling::of(circuit, seed, readers, tables?))
    }
}

/// A copy of a circuit, and the readers of its wires, by two threads where there are to be four.
fn linked_copy<A: Allocator + Copy + Send + Sync, C: Allocator + Sync, R: Threads>(
    rt: &R,
    alloc: A,
    circuit: &Circuit<C>,
    threads: u32,
) -> Result<LinkedCircuit<A>, Memory>
    ensures copy { IfOk result (λ l. l.circuit ≡ circuit.now) }
    ensures readers { IfOk result (λ l. IsLinked l.circuit l.readers.firsts l.readers.nexts) }
{
    if threads < FOUR {
        return Ok(LinkedCircuit {
            circuit: circuit.try_clone(alloc)?,
            readers: Readers::of(alloc, circuit)?,
        });
    }
    let (readers, copy) = thread::join(
        rt,
        || -> Result<Readers<A>, Memory>
            ensures { IfOk result (λ r. IsLinked circuit.entry.now r.firsts r.nexts) }
        { Readers::of(alloc, circuit) },
        || -> Result<Circuit<A>, Memory>
            ensures { IfOk result (λ c. c ≡ circuit.entry.now) }
        { circuit.try_clone(alloc) },
    );
    Ok(LinkedCircuit {
        circuit: copy?,
        readers: readers?,
    })
}

impl<A: Allocator> PartialGarbling<A> {
    /// How many gates are finished.
    pub(crate) fn finished(&self) -> u32
        ensures count { result ≡ count_by is_finished self.now.states }
        ensures lawful { IsLawfulContent self.now }
    {
        self.finished
    }

    /// The law of a count: the finished gates fit in a u32. A call of it does nothing.
    #[inline(always)]
    pub(crate) fn law_few_finished(&self)
        ensures { count_by is_finished self.now.states < 2 ^ 32 }
    {
        let _finished = self.finished();
    }

    /// Whether every gate is finished.
    #[tactic(auto, using(crate::proofs::StepLemmas::all_finished))]
    pub(crate) fn is_complete(&self) -> bool
        ensures complete { IsTrue result ↔ AllFinished self.now }
        ensures lawful { IsLawfulContent self.now }
    {
        self.finished == self.circuit.gates()
    }

    /// Whether these are the gates of this circuit under this seed.
    pub(crate) fn is_for<C: Allocator>(&self, circuit: &Circuit<C>, seed: &Seed) -> bool
        ensures { IsTrue result ↔ (self.now.circuit ≡ circuit.now) × (self.now.seed ≡ seed.now) }
    {
        self.circuit.equals(circuit) && self.seed == *seed
    }

    /// Claims a ready gate and returns its task; or None, exactly where no gate is ready. It looks for one from the
    /// gate `from` on, and then from the first on.
    // A task is so large that returning it takes long where the call is not inlined.
    #[inline(always)]
    pub(crate) fn claim(&mut self, from: u32) -> Option<Task>
        ensures { Claims self.old result self.new }
    {
        let gate = self.queue.take(from)?;
        Some(self.task(gate))
    }

    /// Claims gates until the batch is full or no gate is ready, each as [`PartialGarbling::claim`] does, and puts
    /// their tasks into the batch. Returns how many gates this call claimed.
    pub(crate) fn claim_some(&mut self, from: u32, batch: &mut Batch) -> u32
        ensures { ClaimsSome self.old batch.old result self.new batch.new }
    {
        let mut count = 0;
        while !batch.is_full() {
            let Some(task) = self.claim(from) else {
                break;
            };
            batch.push(task);
            count += 1;
        }
        count
    }

    /// Whether a gate is claimed.
    #[inline]
    pub(crate) fn has_claimed(&self) -> bool
        ensures { IsTrue result ↔ ((i : ℕ) × IsClaimed self.now i) }
    {
        self.claimed() > 0
    }

    /// Frees all claimed gates. Returns how many they were.
    pub(crate) fn reopen(&mut self) -> u32
        ensures { ReopensClaimed self.old result self.new }
    {
        let count = self.claimed();
        self.queue.reopen();
        count
    }

    /// Takes a sealed task back. Returns whether every gate is now finished.
    ///
    /// It refuses a task whose gate isn't claimed, and else one that isn't the own task of its gate. A refusal
    /// changes nothing.
    // A refusal is so large that returning it costs more than the work where the call is not inlined.
    #[inline(always)]
    pub(crate) fn finish(&mut self, sealed: Sealed) -> Result<bool, Refused>
        ensures { Finishes self.old sealed result self.new }
    {
        let task = sealed.task();
        if !self.is_claimed(task.gate) {
            return Err(Refused::NotClaimed(sealed));
        }
        if task != self.task(task.gate) {
            return Err(Refused::OtherInputs(sealed));
        }
        self.keep(&sealed);
        Ok(self.is_complete())
    }

    /// The garbling, or the same progress where a gate isn't finished.
    pub(crate) fn into_garbling(self) -> Result<Garbling<A>, PartialGarbling<A>>
        ensures complete { IfOk result
            (λ garbling. AllFinished self × IsGarbled self.circuit self.seed garbling) }
        ensures incomplete { IfErr result (λ back. (¬ AllFinished self) × (back ≡ self)) }
    {
        if !self.is_complete() {
            return Err(self);
        }
        let PartialGarbling {
            circuit,
            seed: _,
            offset: _,
            queue: _,
            readers: _,
            and_numbers: _,
            zero_labels,
            rows,
            finished: _,
            finished_ands: _,
        } = self;
        Ok(Garbling::from_parts(zero_labels, rows.into_entries(), circuit.output_wires()))
    }

    /// How many gates are claimed.
    #[inline]
    fn claimed(&self) -> u32
        ensures { result ≡ count_by is_claimed self.now.states }
    {
        self.queue.busy() - self.finished
    }

    /// Whether a gate is claimed. There may be no such gate.
    fn is_claimed(&self, i: u32) -> bool
        ensures claimed { IsTrue result ↔ IsClaimed self.now i }
        ensures reads { IsTrue result → ReadsKnown self.now i }
    {
        i < self.circuit.gates() && self.queue.is_claimed(i)
    }

    /// The task of a gate that reads known wires alone.
    #[inline(always)]
    fn task(&self, i: u32) -> Task
        requires { ReadsKnown self.now i }
        ensures gate { result.gate ≡ i }
        ensures own { IsOwnTask self.now result }
    {
        let operation = self.circuit.gate(i).operation;
        let (first, second) = labels_read(&self.zero_labels, operation);
        Task {
            gate: i,
            operation,
            and_number: self.and_numbers[i as usize],
            offset: self.offset,
            first,
            second,
        }
    }

    /// Keeps what a sealed task gives for a gate that is claimed.
    #[inline(always)]
    fn keep(&mut self, sealed: &Sealed)
        requires claimed { IsClaimed self.old sealed.now.gate }
        requires own { IsOwnTask self.old sealed.now }
        ensures { self.new ≡ with_sealed self.old sealed.now }
    {
        let task = sealed.task();
        let wire = self.circuit.gate(task.gate).set;
        self.queue.finish(task.gate);
        self.readers
            .count_down(&mut self.queue, &self.circuit, wire);
        self.zero_labels[wire as usize] = sealed.zero_label();
        self.finished += 1;
        if let Some(rows) = sealed.rows() {
            self.rows.set(task.and_number, rows);
            self.finished_ands += 1;
        }
    }
}
