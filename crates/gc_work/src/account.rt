//! What each holder of a pool has done with it, and the rule that ties this to what the pool holds.

use crossbeam_deque::protocol::{Join, Lesson, Outcome, Protocol, Split};
use gc_store::Task;
use std::collections::LinkedList;

/// What the owner or a thief of a pool has done with it: the tasks that it pushed, popped and stole. `parts` is its
/// share of the right to see the whole account.
///
/// Contracts alone see it; no value of it is made.
pub struct PoolAccount {
    pub parts: u64,
    pub pushed: LinkedList<Task>,
    pub popped: LinkedList<Task>,
    pub stolen: LinkedList<Task>,
}

/// The rule of a pool: what was pushed is what was taken and what is left, as counts.
pub struct PoolRule;

impl Protocol<Task, PoolAccount> for PoolRule {
    ghost use Rattle.std.specs.Prelude.{[]};
    ghost use Rattle.gc_work.specs.PoolRule.{account, all_parts, IsBalanced};

    ghost holds = { IsBalanced };

    ghost first = { account all_parts [] [] [] };

    ghost guest = { account 0 [] [] [] };
}

/// One part of an owner's goes to a thief, and comes back with what the thief stole.
pub(crate) struct OnePart;

impl Split<PoolAccount> for OnePart {
    ghost use Rattle.std.specs.Prelude.{[], ◌-◌};
    ghost use Rattle.gc_work.specs.PoolRule.{account};

    ghost left = { λ v. account (v.parts - 1) v.pushed v.popped v.stolen };

    ghost right = { λ _. account 1 [] [] [] };
}

impl Join<PoolAccount> for OnePart {
    ghost use Rattle.std.specs.Prelude.{[], ◌+◌, ◌++◌};
    ghost use Rattle.gc_work.specs.PoolRule.{account};

    ghost both = { λ v w. account (v.parts + w.parts) v.pushed v.popped (v.stolen ++ w.stolen) };

    ghost spent = { account 0 [] [] [] };
}

pub(crate) struct Pushes;

impl Outcome<Task, PoolAccount> for Pushes {
    ghost use Rattle.std.specs.Prelude.{◌≡◌, ◌++◌};
    ghost use Rattle.gc_work.specs.PoolRule.{account};

    ghost then = { λ v tasks w. w ≡ account v.parts (v.pushed ++ tasks) v.popped v.stolen };
}

pub(crate) struct Pops;

impl Outcome<Task, PoolAccount> for Pops {
    ghost use Rattle.std.specs.Prelude.{◌≡◌, ◌++◌, []};
    ghost use Rattle.gc_work.specs.PoolRule.{account, AccountsFor};

    ghost then = { λ v tasks w. w ≡ account v.parts v.pushed (v.popped ++ tasks) v.stolen };

    ghost empty = { λ v. AccountsFor v [] };
}

pub(crate) struct Steals;

impl Outcome<Task, PoolAccount> for Steals {
    ghost use Rattle.std.specs.Prelude.{◌≡◌, ◌++◌};
    ghost use Rattle.gc_work.specs.PoolRule.{account};

    ghost then = { λ v tasks w. w ≡ account v.parts v.pushed v.popped (v.stolen ++ tasks) };
}

/// What is left of a gathered pool is popped, and is known at each step.
pub(crate) struct Hands;

impl Outcome<Task, PoolAccount> for Hands {
    ghost use Rattle.std.specs.Prelude.{◌≡◌, ◌++◌, []};
    ghost use Rattle.gc_work.specs.PoolRule.{account, AccountsFor, AccountsForSome};

    ghost then = { λ v tasks w. (w ≡ account v.parts v.pushed (v.popped ++ tasks) v.stolen)
        × AccountsForSome w };

    ghost empty = { λ v. AccountsFor v [] };
}

impl Lesson<Task, PoolAccount> for Hands {
    ghost use Rattle.gc_work.specs.PoolRule.{AccountsFor};

    ghost fact = { AccountsFor };
}
