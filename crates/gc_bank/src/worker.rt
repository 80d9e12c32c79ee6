//! One worker of an evaluation of a list of jobs: the rounds that it goes through, its passes over the gates of a
//! round, and the output bits that it keeps.

ghost use Rattle.std.specs.Prelude.{◌≡◌, ◌+◌, ◌<◌, length, All, IfSome, IfOk};
ghost use Rattle.gc_rounds.specs.declared.view.Position.TheVariants.{Outside, Inside};
ghost use Rattle.gc_steps.specs.Walks.{IsWithin, groups_left};
ghost use Rattle.gc_bank.specs.Rounds.{gates_of_each};
ghost use Rattle.gc_bank.specs.Seats.{IsSeatOf, IsNew, view, jobs_on};
ghost use Rattle.gc_job.specs.Jobs.{AreBitsOf};
ghost use Rattle.gc_bank.specs.Workers.{AreOutputLabelsOf, IsWorkerAt, IsWorkerOf, AreWorkersOf};

use crate::seat::{BankSeat, Banks};
use gc_label::Label;
use gc_rounds::{Entry, Reopening};
use gc_steps::{GateGroup, Walk};
use gc_workers::Gatehouse;
use std::alloc::{AllocError, Allocator};
use std::thread;

/// How often a worker asks for a bank that others have not left yet, before it ends. One thread evaluates the jobs that
/// no worker evaluated.
const TRIES: u32 = 1 << 20;

/// The output bits of the job of a round.
#[derive(Drop)]
pub(crate) struct RoundOutputs<B: Allocator> {
    pub(crate) round: u32,
    pub(crate) bits: Vec<bool, B>,
}

/// What a worker has of its own: the memory that it allocates from, its number, its seat at the banks, the first gate
/// of its share, with which each of its passes begins, its walk over the gates of a round, and the output bits that it
/// keeps.
#[derive(Drop)]
pub(crate) struct Worker<B: Allocator, A: Allocator, C: Allocator> {
    alloc: B,
    number: u32,
    seat: BankSeat<B, A, C>,
    first: u32,
    walk: Walk<B>,
    pub(crate) kept: Vec<RoundOutputs<B>, B>,
}

/// The labels of the output wires of the round, in order, where each has one.
fn output_labels<B: Allocator + Copy, A: Allocator, C: Allocator>(
    alloc: B,
    banks: &Banks<'_, '_, B, A, C>,
    seat: &mut BankSeat<B, A, C>,
    round: u32,
) -> Result<Option<Vec<Label, B>>, AllocError>
    requires own { IsSeatOf banks.now seat.old }
    requires inside { (view seat.old).position ≡ Inside round }
    requires round { round < length (jobs_on banks.now) }
    ensures own { IsSeatOf banks.now seat.new }
    ensures inside { (view seat.new).position ≡ Inside round }
    ensures labels { IfOk result
        (λ o. IfSome o (λ v. AreOutputLabelsOf (jobs_on banks.now) round v.items)) }
{
    let circuit = banks.job(round).circuit();
    let count = circuit.output_wires();
    let first = circuit.wires() - count;
    let mut labels = Vec::with_capacity(alloc, count as usize)?;
    for i in 0..count {
        let Some(label) = banks.label(seat, first + i) else {
            return Ok(None);
        };
        labels.push(label)?;
    }
    Ok(Some(labels))
}

/// The output bits that these active labels of the output wires of a round decode to, where they are recognised.
fn bits_of_round<B: Allocator + Copy, A: Allocator, C: Allocator>(
    alloc: B,
    banks: &Banks<'_, '_, B, A, C>,
    round: u32,
    labels: &[Label],
) -> Option<Vec<bool, B>>
    requires round { round < length (jobs_on banks.now) }
    requires labels { AreOutputLabelsOf (jobs_on banks.now) round labels.now }
    ensures { IfSome result (λ v. AreBitsOf (jobs_on banks.now) round v.items) }
{
    let job = banks.job(round);
    job.law_whole();
    match job.decode(alloc, labels) {
        Ok(bits) => Some(bits),
        Err(_) => None,
    }
}

/// Advances the bank of a round, once all have left the round. Returns whether it was advanced.
fn await_bank<B: Allocator, A: Allocator, C: Allocator>(
    banks: &Banks<'_, '_, B, A, C>,
    seat: &mut BankSeat<B, A, C>,
    round: u32,
) -> bool
    requires own { IsSeatOf banks.now seat.old }
    requires outside { (view seat.old).position ≡ Outside }
    requires round { round + 2 < length (jobs_on banks.now) }
    ensures own { IsSeatOf banks.now seat.new }
    ensures outside { (view seat.new).position ≡ Outside }
{
    for _try in 0..TRIES {
        match banks.reopen(seat, round) {
            Reopening::Given | Reopening::OtherRound(_) => return true,
            Reopening::NotSealed | Reopening::Busy => thread::yield_now(),
        }
    }
    false
}

impl<B: Allocator, A: Allocator, C: Allocator> Worker<B, A, C> {
    /// Steps the gates of a group in the round, and notes what each was returned.
    fn step(&mut self, banks: &Banks<'_, '_, B, A, C>, round: u32, group: GateGroup)
        requires worker { IsWorkerAt banks.now (Inside round) self.old }
        requires round { round < length (jobs_on banks.now) }
        requires group { IsWithin (gates_of_each (jobs_on banks.now)) group }
        ensures worker { IsWorkerAt banks.now (Inside round) self.new }
        ensures left { groups_left self.new.walk ≡ groups_left self.old.walk }
    {
        banks.law_round(round);
        match group {
            GateGroup::One(a) => {
                let answer = banks.step(&mut self.seat, a);
                self.walk.note(a, answer);
            }
            GateGroup::Two(a, b) => {
                let answers = banks.step_two(&mut self.seat, a, b);
                self.walk.note(a, answers.0);
                self.walk.note(b, answers.1);
            }
            GateGroup::Four(gates) => {
                let answers = banks.step_four(&mut self.seat, gates);
                self.walk.note(gates.a, answers.0);
                self.walk.note(gates.b, answers.1);
                self.walk.note(gates.c, answers.2);
                self.walk.note(gates.d, answers.3);
            }
        }
    }

    /// One pass over all gates that the worker doesn't know to be done in the round, from its share on and then round
    /// from the first. Returns whether it made a gate, or learnt of one.
    fn pass<H: Gatehouse>(
        &mut self,
        banks: &Banks<'_, '_, B, A, C>,
        observer: &H,
        round: u32,
    ) -> bool
        requires worker { IsWorkerAt banks.now (Inside round) self.old }
        requires round { round < length (jobs_on banks.now) }
        ensures { IsWorkerAt banks.now (Inside round) self.new }
    {
        let circuit = banks.job(round).circuit();
        self.walk.begin(self.first, circuit.gates());
        while let Some(group) = self.walk.next(circuit) {
            group.report_to(observer, self.number);
            self.step(banks, round, group);
        }
        self.walk.has_learnt()
    }
}

impl<B: Allocator + Copy, A: Allocator, C: Allocator> Worker<B, A, C> {
    /// Passes over the gates of the round, of which the worker knows none, again as long as a pass made a gate or
    /// learnt of one, until each output wire has a label. These labels are the result.
    fn labels_of_round<H: Gatehouse>(
        &mut self,
        banks: &Banks<'_, '_, B, A, C>,
        observer: &H,
        round: u32,
    ) -> Option<Vec<Label, B>>
        requires worker { IsWorkerAt banks.now (Inside round) self.old }
        requires round { round < length (jobs_on banks.now) }
        ensures worker { IsWorkerAt banks.now (Inside round) self.new }
        ensures labels { IfSome result (λ v. AreOutputLabelsOf (jobs_on banks.now) round v.items) }
    {
        self.walk.forget();
        for _pass in 0..=banks.job(round).circuit().gates() {
            let learnt = self.pass(banks, observer, round);
            let found = output_labels(self.alloc, banks, &mut self.seat, round);
            if let Ok(Some(labels)) = found {
                return Some(labels);
            }
            if !learnt {
                return None;
            }
        }
        None
    }

    /// Goes through one round: it enters, works, and leaves. Where it saw the labels of all output wires, it seals
    /// the round and keeps the output bits.
    fn serve<H: Gatehouse>(&mut self, banks: &Banks<'_, '_, B, A, C>, observer: &H, round: u32)
        requires worker { IsWorkerOf banks.now self.old }
        requires round { round < length (jobs_on banks.now) }
        ensures { IsWorkerOf banks.now self.new }
    {
        if let Entry::Inside = banks.enter(&mut self.seat, round) {
            let seen = self.labels_of_round(banks, observer, round);
            banks.leave(&mut self.seat);
            if let Some(labels) = seen {
                self.keep(banks, round, &labels);
            }
        }
    }

    /// Seals the round and keeps the output bits of these labels, where no worker did so yet. The labels are decoded
    /// outside of the round, which no seat waits for.
    fn keep(&mut self, banks: &Banks<'_, '_, B, A, C>, round: u32, labels: &[Label])
        requires worker { IsWorkerOf banks.now self.old }
        requires round { round < length (jobs_on banks.now) }
        requires labels { AreOutputLabelsOf (jobs_on banks.now) round labels.now }
        ensures { IsWorkerOf banks.now self.new }
    {
        if let Entry::Inside = banks.enter(&mut self.seat, round) {
            banks.seal(&mut self.seat);
            banks.leave(&mut self.seat);
            if let Some(bits) = bits_of_round(self.alloc, banks, round, labels) {
                // One thread evaluates a job whose bits can't be kept.
                let _ = self.kept.push(RoundOutputs { round, bits });
            }
        }
    }

    /// Goes through all rounds, in order.
    pub(crate) fn work<H: Gatehouse>(&mut self, banks: &Banks<'_, '_, B, A, C>, observer: &H)
        requires { IsWorkerOf banks.now self.old }
        ensures { IsWorkerOf banks.now self.new }
    {
        for round in 0..banks.jobs.len() as u32 {
            if round >= 2 && !await_bank(banks, &mut self.seat, round - 2) {
                return;
            }
            self.serve(banks, observer, round);
        }
    }
}

/// The worker of a new seat, which keeps nothing yet.
fn worker_of<B: Allocator + Copy, A: Allocator, C: Allocator>(
    alloc: B,
    banks: &Banks<'_, '_, B, A, C>,
    seat: BankSeat<B, A, C>,
    number: u32,
) -> Result<Worker<B, A, C>, AllocError>
    requires { IsSeatOf banks.now seat × IsNew (view seat) }
    ensures { IfOk result (IsWorkerOf banks.now) }
{
    let gates = banks.job(0).circuit().gates();
    let share = gates / banks.seats;
    Ok(Worker {
        alloc,
        number,
        seat,
        first: share.saturating_mul(number),
        walk: Walk::new(alloc, gates)?,
        kept: Vec::new(alloc),
    })
}

/// A worker for each seat, from the last to worker 0. The caller ensures that the seats are these banks' and new.
pub(crate) fn workers_of<B: Allocator + Copy, A: Allocator, C: Allocator>(
    alloc: B,
    banks: &Banks<'_, '_, B, A, C>,
    mut seats: Vec<BankSeat<B, A, C>, B>,
) -> Result<Vec<Worker<B, A, C>, B>, AllocError>
    requires { All (λ s. IsSeatOf banks.now s × IsNew (view s)) seats.items }
    ensures { IfOk result (λ v. AreWorkersOf banks.now v.items) }
{
    let mut workers = Vec::with_capacity(alloc, seats.len())?;
    while let Some(seat) = seats.pop() {
        let number = u32::try_from(seats.len()).unwrap_or(0);
        workers.push(worker_of(alloc, banks, seat, number)?)?;
    }
    Ok(workers)
}
