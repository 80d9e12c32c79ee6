//! One worker of an evaluation on many threads: its passes over the gates of the board.

ghost use Rattle.std.specs.Prelude.{◌≡◌, All, IfOk};
ghost use Rattle.gc_job.specs.ActiveLabels.{gates_of};
ghost use Rattle.gc_eval.specs.Seats.{IsSeatOf, IsNew, view, job_on};
ghost use Rattle.gc_steps.specs.Walks.{IsWithin, groups_left};
ghost use Rattle.gc_eval.specs.Workers.{AreWorkersOf, IsWorkerOf};

use crate::seat::{EvalBoard, EvalSeat};
use gc_circuit::Circuit;
use gc_steps::{GateGroup, Walk};
use gc_workers::Gatehouse;
use std::alloc::{AllocError, Allocator};

/// What a worker has of its own: its number, its seat at the board, the first gate of its share, with which each of its
/// passes begins, and its walk over the gates.
#[derive(Drop)]
pub(crate) struct Worker<B: Allocator, A: Allocator, C: Allocator> {
    number: u32,
    seat: EvalSeat<A, C>,
    first: u32,
    walk: Walk<B>,
}

impl<B: Allocator, A: Allocator, C: Allocator> Worker<B, A, C> {
    /// Steps gates at once, and notes what each was returned.
    fn step<H: Gatehouse>(
        &mut self,
        board: &EvalBoard<'_, '_, B, A, C>,
        observer: &H,
        group: GateGroup,
    )
        requires worker { IsWorkerOf board.now self.old }
        requires group { IsWithin (gates_of (job_on board.now)) group }
        ensures worker { IsWorkerOf board.now self.new }
        ensures left { groups_left self.new.walk ≡ groups_left self.old.walk }
    {
        group.report_to(observer, self.number);
        match group {
            GateGroup::One(a) => {
                let answer = board.step(&mut self.seat, a);
                self.walk.note(a, answer);
            }
            GateGroup::Two(a, b) => {
                let answers = board.step_two(&mut self.seat, a, b);
                self.walk.note(a, answers.0);
                self.walk.note(b, answers.1);
            }
            GateGroup::Four(gates) => {
                let answers = board.step_four(&mut self.seat, gates);
                self.walk.note(gates.a, answers.0);
                self.walk.note(gates.b, answers.1);
                self.walk.note(gates.c, answers.2);
                self.walk.note(gates.d, answers.3);
            }
        }
    }

    /// One pass over all gates that the worker doesn't know to be done, from this gate on and then round from the
    /// first. Returns whether it made a gate, or learnt of one.
    fn pass<H: Gatehouse>(
        &mut self,
        board: &EvalBoard<'_, '_, B, A, C>,
        observer: &H,
        first: u32,
    ) -> bool
        requires { IsWorkerOf board.now self.old }
        ensures { IsWorkerOf board.now self.new }
    {
        self.walk.begin(first, board.circuit().gates());
        while let Some(group) = self.walk.next(board.circuit()) {
            self.step(board, observer, group);
        }
        self.walk.has_learnt()
    }

    /// Passes over the gates from its share on, again as long as a pass made a gate or learnt of one.
    pub(crate) fn work<H: Gatehouse>(&mut self, board: &EvalBoard<'_, '_, B, A, C>, observer: &H)
        requires { IsWorkerOf board.now self.old }
        ensures { IsWorkerOf board.now self.new }
    {
        for _pass in 0..=board.circuit().gates() {
            if !self.pass(board, observer, self.first) {
                return;
            }
        }
    }

    /// One further pass in file order over the gates that none of the workers knows to be done, when the others have
    /// ended.
    pub(crate) fn finish<H: Gatehouse>(
        &mut self,
        board: &EvalBoard<'_, '_, B, A, C>,
        observer: &H,
        others: &mut [Worker<B, A, C>],
    )
        requires own { IsWorkerOf board.now self.old }
        requires others { AreWorkersOf board.now others.old }
        ensures own { IsWorkerOf board.now self.new }
        ensures others { AreWorkersOf board.now others.new }
    {
        for k in 0..others.len() {
            self.learn_from(board, &mut others[k]);
        }
        self.pass(board, observer, 0);
    }

    /// Learns what another worker knows.
    fn learn_from(&mut self, board: &EvalBoard<'_, '_, B, A, C>, other: &mut Worker<B, A, C>)
        requires own { IsWorkerOf board.now self.old }
        requires other { IsWorkerOf board.now other.old }
        ensures own { IsWorkerOf board.now self.new }
        ensures other { IsWorkerOf board.now other.new }
    {
        board.tell(&mut other.seat, &mut self.seat);
        self.walk.learn_from(&other.walk);
    }
}

impl<'j, 'c, B: Allocator, A: Allocator, C: Allocator> EvalBoard<'j, 'c, B, A, C> {
    /// The circuit of the board's job.
    #[inline]
    pub(crate) fn circuit(&self) -> &'c Circuit<C>
        ensures { result.now ≡ (job_on self.now).circuit }
    {
        self.job.circuit()
    }
}

/// A worker for each seat, from the last to worker 0. The caller ensures that the seats are this board's and new.
pub(crate) fn workers_of<B: Allocator + Copy, A: Allocator, C: Allocator>(
    alloc: B,
    board: &EvalBoard<'_, '_, B, A, C>,
    mut seats: Vec<EvalSeat<A, C>, B>,
) -> Result<Vec<Worker<B, A, C>, B>, AllocError>
    requires { All (λ s. IsSeatOf board.now s × IsNew (view s)) seats.items }
    ensures { IfOk result (λ v. AreWorkersOf board.now v.items) }
{
    let gates = board.circuit().gates();
    let share = gates / board.seats;
    let mut workers = Vec::with_capacity(alloc, seats.len())?;
    while let Some(seat) = seats.pop() {
        let number = u32::try_from(seats.len()).unwrap_or(0);
        workers.push(Worker {
            number,
            seat,
            first: share.saturating_mul(number),
            walk: Walk::new(alloc, gates)?,
        })?;
    }
    Ok(workers)
}

/// The seats of workers that have ended.
pub(crate) fn seats_of<B: Allocator + Copy, A: Allocator, C: Allocator>(
    alloc: B,
    board: &EvalBoard<'_, '_, B, A, C>,
    mut workers: Vec<Worker<B, A, C>, B>,
) -> Result<Vec<EvalSeat<A, C>, B>, AllocError>
    requires { AreWorkersOf board.now workers.items }
    ensures { IfOk result (λ v. All (IsSeatOf board.now) v.items) }
{
    let mut seats = Vec::with_capacity(alloc, workers.len())?;
    while let Some(worker) = workers.pop() {
        seats.push(worker.seat)?;
    }
    Ok(seats)
}
