//! A worker's thieves at the pools of the others.

ghost use Rattle.gc_work.specs.Places.{IsAt, ArePlaced};

use crate::pool::{TaskPool, Thief};
use gc_store::Task;
use std::alloc::Allocator;

/// A thief, and the place of its pool among all pools.
#[derive(Drop)]
pub(crate) struct PlacedThief<A: Allocator> {
    pub target: usize,
    pub thief: Thief<A>,
}

/// Tries one thief.
fn steal_from<A: Allocator>(pools: &[TaskPool<A>], placed: &mut PlacedThief<A>) -> Option<Task>
    requires { IsAt pools.now placed.old }
    ensures { IsAt pools.now placed.new }
{
    match pools.get(placed.target) {
        Some(pool) => pool.steal(&mut placed.thief),
        None => None,
    }
}

/// Tries each thief once, until one has a task.
pub(crate) fn steal_any<A: Allocator>(
    pools: &[TaskPool<A>],
    thieves: &mut [PlacedThief<A>],
) -> Option<Task>
    requires { ArePlaced pools.now thieves.old }
    ensures { ArePlaced pools.now thieves.new }
{
    for k in 0..thieves.len() {
        let task = steal_from(pools, &mut thieves[k]);
        if task.is_some() {
            return task;
        }
    }
    None
}
