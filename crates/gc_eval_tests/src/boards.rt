//! Tests of boards: what the calls of seats that take turns return, each growth of opening and decoding refused, and
//! that no other call allocates.

ghost use Rattle.std.specs.Prelude.{◌≡◌, ◌<◌, ◌≤◌, All, IfOk};
ghost use Rattle.gc_eval.specs.Seats.{IsSeatOf, job_on};
ghost use Rattle.gc_job.specs.ActiveLabels.{gates_of};

use crate::fixtures::{on_job, on_zeros};
use gc_eval::{Active, EvalBoard, EvalSeat};
use gc_fixtures::circuits::{FULL_ADDER, mixed_chains};
use gc_fixtures::compare::equal;
use gc_fixtures::growths::{Returned, runs_refused};
use gc_fixtures::refusing::Refusing;
use gc_job::{EvalFault, Job};
use gc_label::Label;
use gc_steps::Answer;
use gc_workers::{CloseRefused, OpenFault};
use std::alloc::{Allocator, Global};
use std::test::Fail;
use std::thread;
use std::thread::Threads;

/// Values of the full adder.
const ADDENDS: [&str; 3] = ["1", "0", "1"];

/// A board with two seats.
fn two_seats<'j, 'c, B: Allocator + Copy>(
    alloc: B,
    job: &'j Job<'c>,
) -> Result<(EvalBoard<'j, 'c, B>, EvalSeat, EvalSeat), Fail>
    ensures job { IfOk result (λ b. job_on b.0 ≡ job.now) }
    ensures seats { IfOk result (λ b. IsSeatOf b.0 b.1 × IsSeatOf b.0 b.2) }
{
    let (board, mut seats) = EvalBoard::open(alloc, job, 2)?;
    let Some(two) = seats.pop() else {
        return Err(Fail::new("there are two seats"));
    };
    let Some(one) = seats.pop() else {
        return Err(Fail::new("there are two seats"));
    };
    Ok((board, one, two))
}

/// The answers to five steps of two seats that take turns at the full adder. Gates 0 and 1 read input wires alone, and
/// gate 2 reads wire 3, which gate 0 sets.
fn steps(board: &EvalBoard, one: &mut EvalSeat, two: &mut EvalSeat) -> [Answer; 5]
    requires one { IsSeatOf board.now one.old }
    requires two { IsSeatOf board.now two.old }
    requires gates { gates_of (job_on board.now) ≡ 5 }
    ensures { IsSeatOf board.now one.new × IsSeatOf board.now two.new }
{
    [
        board.step(one, 2),
        board.step(one, 0),
        board.step(two, 1),
        board.step(one, 1),
        board.step(one, 2),
    ]
}

/// The label of a gate that a step made.
fn made_label(answer: Answer) -> Option<Label> {
    match answer {
        Answer::Made(label) => Some(label),
        _ => None,
    }
}

/// Two seats take turns at a job of the full adder: gate by gate, and at last two gates at a time.
fn take_turns(alloc: Global, job: &Job) -> Result<(), Fail> {
    if job.circuit().gates() != 5 || job.circuit().wires() != 8 {
        return Err(Fail::new("the job is of the full adder"));
    }
    let (board, mut one, mut two) = two_seats(alloc, job)?;
    let early = board.step_two(&mut one, 2, 4);
    let answers = steps(&board, &mut one, &mut two);
    let label = made_label(answers[2]).ok_or("gate 1 is free")?;
    let are_made = made_label(answers[1]).is_some() && made_label(answers[4]).is_some();
    let wanted = (Answer::NotYet(3), true, Answer::Done(label));
    equal((answers[0], are_made, answers[3]), wanted)?;
    let labels = (board.label(&mut one, 7), board.label(&mut two, 7));
    equal(labels, (None, None))?;
    let (third, again) = board.step_two(&mut two, 3, 3);
    let (last, known) = board.step_two(&mut one, 4, 3);
    let label = made_label(third).ok_or("gate 3 is free")?;
    equal((again, known), (Answer::Done(label), Answer::Done(label)))?;
    equal(early, (Answer::NotYet(3), Answer::NotYet(5)))?;
    let is_made = made_label(last).is_some();
    equal((is_made, one.made(), two.made()), (true, 3, 2))
}

#[test]
fn two_seats_take_turns(rt: HostRuntime) -> Result<(), Fail> {
    on_job(
        rt.alloc(),
        FULL_ADDER,
        &ADDENDS,
        |job| take_turns(rt.alloc(), job),
    )
}

/// How many seats a board over this memory has.
fn opened<A: Allocator + Copy>(alloc: A, job: &Job) -> Result<usize, OpenFault> {
    let (_, seats) = EvalBoard::open(alloc, job, 2)?;
    Ok(seats.len())
}

/// The words, the two tables of the circuit, the seats, and the table's own two blocks, without which there is no
/// table.
#[test]
fn only_the_table_is_no_table(rt: HostRuntime) -> Result<(), Fail> {
    on_job(rt.alloc(), FULL_ADDER, &ADDENDS, |job| {
        for (n, found) in [
            (1, Err(OpenFault::Memory)),
            (2, Err(OpenFault::Memory)),
            (3, Err(OpenFault::Memory)),
            (4, Err(OpenFault::Memory)),
            (5, Err(OpenFault::NoTable)),
            (6, Err(OpenFault::NoTable)),
            (7, Ok(2)),
        ] {
            let heap = Refusing::nth(rt.alloc(), n);
            equal((n, opened(&heap, job)), (n, found))?;
        }
        Ok(())
    })
}

/// The board, closed with all its seats.
fn closed<'j, 'c>(board: EvalBoard<'j, 'c>, seats: Vec<EvalSeat>) -> Result<Active<'j, 'c>, Fail>
    requires { All (IsSeatOf board) seats.items }
{
    let Ok(active) = board.close(seats) else {
        return Err(Fail::new("all seats are there"));
    };
    Ok(active)
}

/// The board and the seats that a refused close gives back.
fn given_back<'j, 'c>(
    board: EvalBoard<'j, 'c>,
    seats: Vec<EvalSeat>,
) -> Result<(EvalBoard<'j, 'c>, Vec<EvalSeat>), Fail>
    requires { All (IsSeatOf board) seats.items }
    ensures board { IfOk result (λ b. b.0 ≡ board.entry) }
    ensures seats { IfOk result (λ b. b.1 ≡ seats) }
{
    match board.close(seats) {
        Ok(_) => Err(Fail::new("a seat is missing")),
        Err(CloseRefused { board, seats }) => Ok((board, seats)),
    }
}

/// A board without one of its two seats isn't closed. With both it is, and what the other one made is done.
fn close_at_last(alloc: Global, job: &Job) -> Result<(), Fail> {
    if job.circuit().gates() == 0 {
        return Err(Fail::new("there is a gate"));
    }
    let (board, mut one, two) = two_seats(alloc, job)?;
    let is_made = made_label(board.step(&mut one, 0)).is_some();
    let mut seats = Vec::new(alloc);
    seats.push(one)?;
    let (board, mut seats) = given_back(board, seats)?;
    let back = seats.len();
    seats.push(two)?;
    let active = closed(board, seats)?;
    equal((is_made, back, active.done()), (true, 1, 1))
}

#[test]
fn a_seat_is_missing(rt: HostRuntime) -> Result<(), Fail> {
    on_job(
        rt.alloc(),
        FULL_ADDER,
        &ADDENDS,
        |job| close_at_last(rt.alloc(), job),
    )
}

/// One seat steps all gates of the circuit in file order.
fn step_all<'j, 'c, B: Allocator>(board: &EvalBoard<'j, 'c, B>, job: &Job<'c>, seat: &mut EvalSeat)
    requires own { IsSeatOf board.now seat.old }
    requires job { job_on board.now ≡ job.now }
    ensures { IsSeatOf board.now seat.new }
{
    for gate in 0..job.circuit().gates() {
        board.step(seat, gate);
    }
}

/// What decoding over this memory returned.
fn decoded(heap: &Refusing<Global>, active: &Active) -> Returned {
    match active.decode(heap) {
        Ok(Some(_)) => Returned::Plain,
        Err(EvalFault::Memory) => Returned::Memory,
        _ => Returned::Other,
    }
}

/// Has one seat make all gates and share them with the other one.
fn share<'j, 'c, B: Allocator>(
    board: &EvalBoard<'j, 'c, B>,
    job: &Job<'c>,
    one: &mut EvalSeat,
    two: &mut EvalSeat,
)
    requires one { IsSeatOf board.now one.old }
    requires two { IsSeatOf board.now two.old }
    requires job { job_on board.now ≡ job.now }
    ensures { IsSeatOf board.now one.new × IsSeatOf board.now two.new }
{
    step_all(board, job, one);
    board.tell(one, two);
}

/// Opens a board over this memory, has its seats work, and closes it. It returns whether a wire has the same label
/// before and after the closing, and how many gates are done, where no memory was asked for after the opening.
fn works_without_memory(heap: &Refusing<Global>, job: &Job, wire: u32) -> Result<(bool, u32), Fail>
    requires { wire < job.now.circuit.wires }
{
    let mut seats = Vec::with_capacity(heap, 2)?;
    let (board, mut one, mut two) = two_seats(heap, job)?;
    let opened = heap.growths();
    share(&board, job, &mut one, &mut two);
    let label = board.label(&mut two, wire);
    seats.push(one)?;
    seats.push(two)?;
    let Ok(active) = board.close(seats) else {
        return Err(Fail::new("both seats are there"));
    };
    let is_same = label.is_some() && active.label(wire) == label;
    let done = active.done();
    equal(heap.growths(), opened)?;
    Ok((is_same, done))
}

/// Decoding what a seat made allocates the output labels and their bits.
fn decoding_refused(alloc: Global, job: &Job) -> Result<(), Fail> {
    let (board, mut one, two) = two_seats(alloc, job)?;
    step_all(&board, job, &mut one);
    let mut seats = Vec::new(alloc);
    seats.push(one)?;
    seats.push(two)?;
    let active = closed(board, seats)?;
    equal(runs_refused(alloc, |heap| decoded(heap, &active)), Ok(2))
}

#[test]
fn an_opened_board_grows_nothing(rt: HostRuntime) -> Result<(), Fail> {
    on_job(rt.alloc(), FULL_ADDER, &ADDENDS, |job| {
        if job.circuit().wires() != 8 {
            return Err(Fail::new("the job is of the full adder"));
        }
        let found = works_without_memory(&Refusing::never(rt.alloc()), job, 7)?;
        equal(found, (true, 5))?;
        decoding_refused(rt.alloc(), job)
    })
}

/// Lets each seat step all gates, at first each in a thread of its own, and then one after another.
fn step_twice<'j, 'c, R: Threads + Sync>(
    rt: &R,
    board: &EvalBoard<'j, 'c>,
    job: &Job<'c>,
    seats: &mut [EvalSeat],
)
    requires own { All (IsSeatOf board.now) seats.old }
    requires job { job_on board.now ≡ job.now }
    ensures { All (IsSeatOf board.now) seats.new }
{
    for threads in [8usize, 1] {
        thread::for_each_mut(
            rt,
            seats,
            threads.max(1),
            &|_i: usize, seat: &mut EvalSeat|
                requires { IsSeatOf board.now seat.old × (job_on board.now ≡ job.now) }
                ensures { IsSeatOf board.entry.now seat.new }
            { step_all(board, job, seat) },
        );
    }
}

/// How many gates are done that this many seats step, at first each in a thread of its own, and then one after another.
fn make_all<R: Threads + Sync>(rt: &R, alloc: Global, job: &Job, seats: u32) -> Result<u32, Fail>
    requires { (0 < seats) × (seats ≤ 8) }
{
    let (board, mut all) = EvalBoard::open(alloc, job, seats)?;
    step_twice(rt, &board, job, all.as_mut_slice());
    Ok(closed(board, all)?.done())
}

/// Seats, from one to eight, make all gates of a circuit with gates of each operation.
#[test]
fn many_seats(rt: HostRuntime) -> Result<(), Fail> {
    let text = mixed_chains(rt.alloc(), 8, 16)?;
    on_zeros(rt.alloc(), text.as_str(), |job| {
        for seats in 1..9 {
            let made = make_all(&rt, rt.alloc(), job, seats)?;
            equal((seats, made), (seats, job.circuit().gates()))?;
        }
        Ok(())
    })
}
