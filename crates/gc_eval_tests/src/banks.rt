//! Tests of banks: what the calls of two seats that take turns return, and that no call of opened banks allocates.

ghost use Rattle.std.specs.Prelude.{◌≡◌, ◌<◌, length, All, IfOk};
ghost use Rattle.gc_bank.specs.Seats.{IsSeatOf, IsInside, InRound, view, jobs_on};

use crate::fixtures::on_three_jobs;
use crate::jobs::together;
use gc_bank::{BankSeat, Banks};
use gc_circuit::Circuit;
use gc_fixtures::compare::equal;
use gc_fixtures::refusing::Refusing;
use gc_job::Job;
use gc_label::Label;
use gc_rounds::{Entry, Reopening};
use gc_steps::Answer;
use gc_workers::CloseRefused;
use std::alloc::{Allocator, Global};
use std::test::Fail;

/// One call of a seat.
#[derive(Clone, Copy, PartialEq, Eq, Debug)]
enum Call {
    Enter(u32),
    Step(u32),
    Label(u32),
    Leave,
    Seal,
    Reopen(u32),
}

/// What a call returns.
#[derive(Clone, Copy, PartialEq, Eq, Debug)]
enum Reply {
    Entry(Entry),
    Answer(Answer),
    Label(Option<Label>),
    Nothing,
    Bank(Reopening),
    /// The seat may not make the call where it is.
    Barred,
}

/// Makes a call of a seat that is inside a round, whose job is on this circuit.
fn called_inside<B: Allocator>(
    banks: &Banks<'_, '_, B>,
    circuit: &Circuit,
    seat: &mut BankSeat<B>,
    call: Call,
) -> Reply
    requires own { IsSeatOf banks.now seat.old }
    requires inside { IsInside (view seat.old) }
    requires circuit { InRound (jobs_on banks.now) (view seat.old)
        (λ job. job.circuit ≡ circuit.now) }
    ensures { IsSeatOf banks.now seat.new }
{
    match call {
        Call::Step(gate) if gate < circuit.gates() => Reply::Answer(banks.step(seat, gate)),
        Call::Label(wire) if wire < circuit.wires() => Reply::Label(banks.label(seat, wire)),
        Call::Leave => {
            banks.leave(seat);
            Reply::Nothing
        }
        Call::Seal => {
            banks.seal(seat);
            Reply::Nothing
        }
        _ => Reply::Barred,
    }
}

/// Makes a call of a seat.
fn called<B: Allocator>(
    banks: &Banks<'_, '_, B>,
    jobs: &[Job],
    seat: &mut BankSeat<B>,
    call: Call,
) -> Reply
    requires own { IsSeatOf banks.now seat.old }
    requires jobs { jobs_on banks.now ≡ jobs.now }
    ensures { IsSeatOf banks.now seat.new }
{
    match (seat.inside(), call) {
        (Some(round), _) if (round as usize) < jobs.len() => {
            called_inside(banks, jobs[round as usize].circuit(), seat, call)
        }
        (None, Call::Enter(round)) if (round as usize) < jobs.len() => {
            Reply::Entry(banks.enter(seat, round))
        }
        (None, Call::Reopen(round)) if (round as usize) + 2 < jobs.len() => {
            Reply::Bank(banks.reopen(seat, round))
        }
        _ => Reply::Barred,
    }
}

/// Two seats of banks.
#[derive(Drop)]
struct TwoSeats<B: Allocator = Global> {
    one: BankSeat<B>,
    two: BankSeat<B>,
}

/// Banks with two seats for these jobs.
fn two_seats<'j, 'c, B: Allocator + Copy>(
    alloc: B,
    jobs: &'j [Job<'c>],
) -> Result<(Banks<'j, 'c, B>, TwoSeats<B>), Fail>
    ensures jobs { IfOk result (λ b. jobs_on b.0 ≡ jobs.now) }
    ensures seats { IfOk result (λ b. IsSeatOf b.0 b.1.one × IsSeatOf b.0 b.1.two) }
{
    let jobs = together(jobs).ok_or("the jobs are on one circuit")?;
    let (banks, mut seats) = Banks::open(alloc, jobs, 2)?;
    let Some(two) = seats.pop() else {
        return Err(Fail::new("there are two seats"));
    };
    let Some(one) = seats.pop() else {
        return Err(Fail::new("there are two seats"));
    };
    Ok((banks, TwoSeats { one, two }))
}

/// The label that gate 0 of the full adder sets, which reads the input wires 0 and 2.
fn first_gate(job: &Job) -> Result<Label, Fail> {
    if job.circuit().gates() == 0 || job.circuit().input_wires() != 3 {
        return Err(Fail::new("the job is of the full adder"));
    }
    Ok(job.active(0, job.input(0), job.input(2)))
}

/// The calls that two seats, 1 and 2, make in turn at banks for these three jobs, and the replies. A bank goes to its
/// next round when its round is sealed and nobody is inside.
fn script(jobs: &[Job]) -> Result<[(u32, Call, Reply); 18], Fail>
    requires { length jobs.now ≡ 3 }
{
    let early = first_gate(&jobs[0])?;
    let late = first_gate(&jobs[2])?;
    Ok([
        (1, Call::Enter(0), Reply::Entry(Entry::Inside)),
        (1, Call::Step(0), Reply::Answer(Answer::Made(early))),
        (1, Call::Step(0), Reply::Answer(Answer::Done(early))),
        (1, Call::Label(3), Reply::Label(Some(early))),
        (1, Call::Label(4), Reply::Label(None)),
        (2, Call::Enter(2), Reply::Entry(Entry::OtherRound(0))),
        (2, Call::Reopen(0), Reply::Bank(Reopening::NotSealed)),
        (1, Call::Seal, Reply::Nothing),
        (2, Call::Enter(0), Reply::Entry(Entry::Shut)),
        (2, Call::Reopen(0), Reply::Bank(Reopening::Busy)),
        (1, Call::Leave, Reply::Nothing),
        (2, Call::Reopen(0), Reply::Bank(Reopening::Given)),
        (1, Call::Enter(0), Reply::Entry(Entry::OtherRound(2))),
        (1, Call::Enter(2), Reply::Entry(Entry::Inside)),
        (1, Call::Step(0), Reply::Answer(Answer::Made(late))),
        (1, Call::Seal, Reply::Nothing),
        (1, Call::Leave, Reply::Nothing),
        (2, Call::Reopen(0), Reply::Bank(Reopening::OtherRound(2))),
    ])
}

/// Makes the calls of a script. It returns the first call that has another reply than the script's, with the reply.
fn first_other<B: Allocator>(
    banks: &Banks<'_, '_, B>,
    jobs: &[Job],
    seats: &mut TwoSeats<B>,
    script: &[(u32, Call, Reply)],
) -> Option<(Call, Reply)>
    requires own { IsSeatOf banks.now seats.old.one × IsSeatOf banks.now seats.old.two }
    requires jobs { jobs_on banks.now ≡ jobs.now }
    ensures { IsSeatOf banks.now seats.new.one × IsSeatOf banks.now seats.new.two }
{
    for (who, call, wanted) in script {
        let found = match who {
            1 => called(banks, jobs, &mut seats.one, *call),
            _ => called(banks, jobs, &mut seats.two, *call),
        };
        if found != *wanted {
            return Some((*call, found));
        }
    }
    None
}

/// Opens banks over this memory, has two seats make the calls of a script, whose replies are the script's, and closes
/// the banks. It returns how many gates were made. No memory is asked for after the opening.
fn works_without_memory(
    heap: &Refusing<Global>,
    jobs: &[Job],
    script: &[(u32, Call, Reply)],
) -> Result<u64, Fail> {
    let mut seats = Vec::with_capacity(heap, 2)?;
    let (banks, mut both) = two_seats(heap, jobs)?;
    let opened = heap.growths();
    let other = first_other(&banks, jobs, &mut both, script);
    let TwoSeats { one, two } = both;
    if one.inside().is_some() || two.inside().is_some() {
        return Err(Fail::new("both seats are outside"));
    }
    seats.push(one)?;
    seats.push(two)?;
    let Ok(made) = banks.close(seats) else {
        return Err(Fail::new("both seats are there"));
    };
    equal((other, heap.growths()), (None, opened))?;
    Ok(made)
}

/// The replies are those of the script, after which two gates are made.
fn take_turns(alloc: Global, jobs: &[Job]) -> Result<(), Fail> {
    if jobs.len() != 3 {
        return Err(Fail::new("there are three jobs"));
    }
    let script = script(jobs)?;
    let made = works_without_memory(&Refusing::never(alloc), jobs, &script)?;
    equal(made, 2)
}

#[test]
fn two_seats_take_turns(rt: HostRuntime) -> Result<(), Fail> {
    on_three_jobs(rt.alloc(), |jobs| take_turns(rt.alloc(), jobs))
}

/// The banks and the seats that a refused close gives back.
fn given_back<'j, 'c>(
    banks: Banks<'j, 'c>,
    seats: Vec<BankSeat>,
) -> Result<(Banks<'j, 'c>, Vec<BankSeat>), Fail>
    requires { All (IsSeatOf banks) seats.items }
    ensures banks { IfOk result (λ b. b.0 ≡ banks.entry) }
    ensures seats { IfOk result (λ b. b.1 ≡ seats) }
{
    match banks.close(seats) {
        Ok(_) => Err(Fail::new("a seat is missing or inside")),
        Err(CloseRefused { board, seats }) => Ok((board, seats)),
    }
}

/// Banks are closed neither while one of their two seats is inside a round nor without it. With both outside they are,
/// and what it made is counted.
fn close_at_last(alloc: Global, jobs: &[Job]) -> Result<(), Fail> {
    let (banks, TwoSeats { mut one, two }) = two_seats(alloc, jobs)?;
    called(&banks, jobs, &mut one, Call::Enter(1));
    called(&banks, jobs, &mut one, Call::Step(0));
    let mut seats = Vec::new(alloc);
    seats.push(two)?;
    seats.push(one)?;
    let (banks, mut seats) = given_back(banks, seats)?;
    let Some(mut one) = seats.pop() else {
        return Err(Fail::new("both seats are given back"));
    };
    equal((seats.len(), one.inside(), one.made()), (1, Some(1), 1))?;
    called(&banks, jobs, &mut one, Call::Leave);
    let (banks, mut seats) = given_back(banks, seats)?;
    seats.push(one)?;
    let Ok(made) = banks.close(seats) else {
        return Err(Fail::new("both seats are outside"));
    };
    equal(made, 1)
}

#[test]
fn a_seat_is_inside_or_missing(rt: HostRuntime) -> Result<(), Fail> {
    on_three_jobs(rt.alloc(), |jobs| close_at_last(rt.alloc(), jobs))
}
