//! Tests of task pools: what is pushed is handed out, full pools, missing thieves, and each growth of opening one.

ghost use Rattle.std.specs.Prelude.{◌≡◌, IfSome, OnOk};
ghost use Rattle.gc_work.specs.Pool.{AllOf};

use gc_circuit::{Memory, Operation};
use gc_fixtures::compare::equal;
use gc_fixtures::files::zero_seed;
use gc_fixtures::growths::{Returned, answer_of, refusals_met, runs_refused};
use gc_fixtures::refusing::Refusing;
use gc_label::{Label, offset};
use gc_store::Task;
use gc_work::{Gathered, NoRoom, Owner, TaskPool, Thief};
use std::alloc::{AllocFailed, Allocator, Global};
use std::test::Fail;

/// A task of a gate that reads no wire.
fn task(gate: u32) -> Task {
    Task {
        gate,
        operation: Operation::Eq(false),
        and_number: 0,
        offset: offset(&zero_seed()),
        first: Label::ZERO,
        second: Label::ZERO,
    }
}

/// The gate of a task.
fn gate_of(task: Option<Task>) -> Option<u32> {
    Some(task?.gate)
}

/// Pushes tasks of the gates 0, 1, 2 .. until one is refused, and no more than `most`. Returns how many were pushed,
/// and the refusal.
fn push_some<A: Allocator>(
    pool: &TaskPool<A>,
    owner: &mut Owner<A>,
    most: u32,
) -> (u32, Option<NoRoom>)
    requires { owner.old.pool ≡ pool.now }
    ensures { owner.new.pool ≡ owner.old.pool }
{
    for gate in 0..most {
        if let Err(refused) = pool.push(owner, task(gate)) {
            return (gate, Some(refused));
        }
    }
    (most, None)
}

/// Pushes three tasks, pops one and steals two, and then none is left. Returns how many were pushed, and the gates of
/// those popped and stolen.
fn use_pool<A: Allocator>(
    pool: &TaskPool<A>,
    owner: &mut Owner<A>,
    thief: &mut Thief<A>,
) -> (u32, [Option<u32>; 5])
    requires own { owner.old.pool ≡ pool.now }
    requires thief { thief.old.pool ≡ pool.now }
    ensures own { owner.new.pool ≡ owner.old.pool }
    ensures thief { thief.new.pool ≡ thief.old.pool }
{
    let (pushed, _) = push_some(pool, owner, 3);
    let gates = [
        gate_of(pool.pop(owner)),
        gate_of(pool.steal(thief)),
        gate_of(pool.steal(thief)),
        gate_of(pool.pop(owner)),
        gate_of(pool.steal(thief)),
    ];
    (pushed, gates)
}

/// Of three tasks the last one is popped, and the others are stolen, the first one first. Then the pool is gathered.
/// None of it asks for memory.
#[test]
fn pool_hands_out(rt: HostRuntime) -> Result<(), Fail> {
    let heap = Refusing::never(rt.alloc());
    let (pool, mut owner, mut thieves) = TaskPool::open(&heap, 3, 1)?;
    let opened = heap.growths();
    let mut thief = thieves.pop().ok_or("a thief")?;
    let found = use_pool(&pool, &mut owner, &mut thief);
    thieves.push(thief)?;
    let is_gathered = pool.gather(owner, thieves).is_ok();
    equal(found, (3, [Some(2), Some(0), Some(1), None, None]))?;
    equal((is_gathered, heap.growths()), (true, opened))
}

/// Without thieves all of three tasks are popped, the last one first.
#[test]
fn pool_hands_out_without_thieves(rt: HostRuntime) -> Result<(), Fail> {
    let (pool, mut owner, _thieves) = TaskPool::open(rt.alloc(), 3, 0)?;
    push_some(&pool, &mut owner, 3);
    let gates = [
        gate_of(pool.pop(&mut owner)),
        gate_of(pool.pop(&mut owner)),
        gate_of(pool.pop(&mut owner)),
        gate_of(pool.pop(&mut owner)),
    ];
    equal(gates, [Some(2), Some(1), Some(0), None])
}

/// What opening a pool with three thieves returned.
fn opens(heap: &Refusing<Global>) -> Returned {
    answer_of(TaskPool::open(heap, 2, 3), Memory)
}

#[test]
fn opening(rt: HostRuntime) -> Result<(), Fail> {
    equal(runs_refused(rt.alloc(), opens), Ok(4))
}

/// Takes the last thief away.
fn take_one<A: Allocator>(pool: &TaskPool<A>, thieves: &mut Vec<Thief<A>, A>) -> Option<Thief<A>>
    requires { AllOf pool.now thieves.old.items }
    ensures own { IfSome result (λ thief. thief.pool ≡ pool.now) }
    ensures rest { AllOf pool.now thieves.new.items }
{
    match thieves.pop() {
        Some(thief) => Some(thief),
        None => None,
    }
}

/// Puts a thief back.
fn put_back<A: Allocator>(
    pool: &TaskPool<A>,
    thieves: &mut Vec<Thief<A>, A>,
    thief: Thief<A>,
) -> Result<(), AllocFailed<Thief<A>>>
    requires own { thief.pool ≡ pool.now }
    requires all { AllOf pool.now thieves.old.items }
    ensures { OnOk result (AllOf pool.now thieves.new.items) }
{
    thieves.push(thief)?;
    Ok(())
}

/// Without one of three thieves a pool isn't gathered: its tasks and the other thieves are back. With all three it is.
#[test]
fn gathers_with_all_thieves(rt: HostRuntime) -> Result<(), Fail> {
    let (pool, mut owner, mut thieves) = TaskPool::open(rt.alloc(), 3, 3)?;
    push_some(&pool, &mut owner, 3);
    let last = take_one(&pool, &mut thieves).ok_or("a thief")?;
    let (pool, mut owner, mut thieves) = match pool.gather(owner, thieves) {
        Ok(_) => return Err(Fail::new("gathered without a thief")),
        Err(back) => back,
    };
    equal((gate_of(pool.pop(&mut owner)), thieves.len()), (Some(2), 2))?;
    put_back(&pool, &mut thieves, last)?;
    let Ok(gathered) = pool.gather(owner, thieves) else {
        return Err(Fail::new("a thief is missing"));
    };
    equal(hands_out(gathered, 0, 2), true)
}

/// Whether a pool that is gathered hands out the tasks of these gates, the last one first, and then none.
fn hands_out<A: Allocator>(mut gathered: Gathered<A>, first: u32, end: u32) -> bool {
    for gate in (first..end).rev() {
        if gathered.next() != Some(task(gate)) {
            return false;
        }
    }
    gathered.next().is_none()
}

/// Whether the first of some tasks is stolen, the last one popped, and those between are left.
fn hands_out_all<A: Allocator>(
    pool: TaskPool<A>,
    mut owner: Owner<A>,
    mut thieves: Vec<Thief<A>, A>,
    pushed: u32,
) -> Option<bool>
    requires own { owner.pool ≡ pool }
    requires all { AllOf pool thieves.items }
{
    let mut thief = take_one(&pool, &mut thieves)?;
    let stolen = pool.steal(&mut thief)?.gate;
    let popped = pool.pop(&mut owner)?.gate;
    put_back(&pool, &mut thieves, thief).ok()?;
    let gathered = pool.gather(owner, thieves).ok()?;
    Some(stolen == 0 && popped.checked_add(1) == Some(pushed) && hands_out(gathered, 1, popped))
}

/// What came of 64 pushes to a pool with room for two tasks: it takes all, or, where memory is refused, at least two,
/// and gives the next one back; it hands out those that it took, and no others. Or it doesn't open.
fn fills(heap: &Refusing<Global>) -> Returned {
    let Ok((pool, mut owner, thieves)) = TaskPool::open(heap, 2, 1) else {
        return Returned::Memory;
    };
    let (pushed, refused) = push_some(&pool, &mut owner, 64);
    let is_right = match refused {
        None => pushed == 64 && heap.refused() == 0,
        Some(refused) => pushed >= 2 && refused.task == task(pushed) && heap.refused() == 1,
    };
    if is_right && hands_out_all(pool, owner, thieves, pushed) == Some(true) {
        Returned::Plain
    } else {
        Returned::Other
    }
}

/// A full pool grows where memory is there, and refuses a task where none is. It takes none for the first pushes.
#[test]
fn a_full_pool_refuses(rt: HostRuntime) -> Result<(), Fail> {
    assert!(rt; refusals_met(rt.alloc(), fills)?.runs > 4);
    Ok(())
}
