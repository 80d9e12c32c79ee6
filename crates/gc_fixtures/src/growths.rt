//! Each allocation of a call refused in turn: the call returns its Memory fault exactly where an allocation was
//! refused, and the plain result where none was, also after a refusal. [`refusals_met`] also lets a call do without an
//! allocation.

use crate::refusing::Refusing;
use std::alloc::Global;

/// What a call returned.
#[derive(Clone, Copy, PartialEq, Eq, Debug)]
pub enum Returned {
    /// What it returns with ample memory.
    Plain,
    /// Its Memory fault.
    Memory,
    /// Something else.
    Other,
}

/// What a call returned that has this Memory fault.
pub fn answer_of<T: Drop, E: PartialEq + Copy>(found: Result<T, E>, memory: E) -> Returned {
    match found.err() {
        None => Returned::Plain,
        Some(fault) if fault == memory => Returned::Memory,
        Some(_) => Returned::Other,
    }
}

/// A run that returned something else than it should.
#[derive(Clone, Copy, PartialEq, Eq, Debug)]
pub enum Stray {
    /// The run with this allocation refused, which should return the Memory fault.
    Refused(u64, Returned),
    /// A run with ample memory, after one with this allocation refused or instead of it, which should give the plain
    /// result.
    Ample(u64, Returned),
    /// Each run met a refusal.
    Endless,
}

/// Makes the call with allocation 1, 2, 3, .. refused, until a run meets no refusal. Each run that meets one returns
/// its Memory fault, and each other one, also over memory that refused an allocation before, the plain result. Returns
/// how many runs met a refusal.
pub fn runs_refused<F: Fn(&Refusing<Global>) -> Returned>(
    alloc: Global,
    call: F,
) -> Result<u64, Stray>
    requires { F.IsAlwaysCallable call }
{
    for n in 1..64 {
        let heap = Refusing::nth(alloc, n);
        let answer = call(&heap);
        let again = if heap.refused() == 0 {
            answer
        } else if answer == Returned::Memory {
            call(&heap)
        } else {
            return Err(Stray::Refused(n, answer));
        };
        if again != Returned::Plain {
            return Err(Stray::Ample(n, again));
        }
        if answer == Returned::Plain {
            return Ok(n - 1);
        }
    }
    Err(Stray::Endless)
}

/// The runs that met a refusal.
#[derive(Clone, Copy, PartialEq, Eq, Debug)]
pub struct Met {
    /// How many there are,
    pub runs: u64,
    /// how many of them return the plain result all the same,
    pub plain: u64,
    /// and how many of these come before the first one that returns the Memory fault.
    pub before_fault: u64,
}

impl Met {
    /// Counts a run that returned this.
    fn count(&mut self, answer: Returned) {
        if answer == Returned::Plain {
            self.plain = self.plain.saturating_add(1);
            if self.before_fault == self.runs {
                self.before_fault = self.before_fault.saturating_add(1);
            }
        }
        self.runs = self.runs.saturating_add(1);
    }
}

/// Makes the call with allocation 1, 2, 3, .. refused, until a run meets no refusal. Each run that meets one returns
/// its Memory fault or the plain result, and the last one the plain result.
pub fn refusals_met<F: Fn(&Refusing<Global>) -> Returned>(
    alloc: Global,
    call: F,
) -> Result<Met, Stray>
    requires { F.IsAlwaysCallable call }
{
    let mut met = Met {
        runs: 0,
        plain: 0,
        before_fault: 0,
    };
    for n in 1..10_000 {
        let heap = Refusing::nth(alloc, n);
        let answer = call(&heap);
        match (answer, heap.refused()) {
            (Returned::Plain, 0) => return Ok(met),
            (_, 0) => return Err(Stray::Ample(n, answer)),
            (Returned::Other, _) => return Err(Stray::Refused(n, answer)),
            _ => met.count(answer),
        }
    }
    Err(Stray::Endless)
}
