//! The order in which a worker steps the gates of a circuit.

ghost use Rattle.std.specs.Prelude.{◌≡◌, ◌+◌, ◌<◌, ◌≤◌, ◌||◌, false, min, IfNone, IfOk, IfSome, length};
ghost use Rattle.gc_steps.specs.Walks.{IsWithin, groups_left, is_learnt};

use crate::answer::Answer;
use gc_circuit::{Circuit, Gate};
use gc_half::{Four, WaitingGates};
use gc_workers::{Gatehouse, NumberSet};
use std::alloc::{AllocError, Allocator, Global};
use std::marker::Model;

/// Gates to be stepped at once, by their numbers in the file.
#[derive(Clone, Copy)]
pub enum GateGroup {
    /// One gate, of any kind.
    One(u32),
    /// Two AND gates, in the order of the walk.
    Two(u32, u32),
    /// Four AND gates, in the order of the walk.
    Four(Four<u32>),
}

impl GateGroup {
    /// Reports each gate to an observer, before the worker of this number steps it.
    pub fn report_to<H: Gatehouse>(self, observer: &H, worker: u32) {
        match self {
            GateGroup::One(a) => observer.before(worker, a),
            GateGroup::Two(a, b) => {
                observer.before(worker, a);
                observer.before(worker, b);
            }
            GateGroup::Four(Four { a, b, c, d }) => {
                observer.before(worker, a);
                observer.before(worker, b);
                observer.before(worker, c);
                observer.before(worker, d);
            }
        }
    }
}

/// A worker's passes over the gates of a circuit, but for those that it knows to be done. AND gates wait until there
/// are four, which are stepped at once. Before a gate that reads a wire that one of them sets, and at the end of a
/// pass, those that wait are stepped. No result depends on a walk. Contracts see how many gates there are, how many of
/// them the pass has yet to come to, how many AND gates wait, and whether the worker learnt of a gate in the pass.
#[derive(Drop)]
pub struct Walk<B: Allocator = Global> {
    gates: u32,
    next: u32,
    left: u32,
    learnt: bool,
    known: NumberSet<B>,
    waiting: WaitingGates<u32>,
}

impl<B: Allocator> Model for Walk<B> {
    ghost use Rattle.std.specs.Prelude.{ℕ, ◌*◌, ◌<◌, ◌≤◌, All, length};
    ghost use Rattle.gc_half.specs.Waiting.{gates_in};
    ghost use Rattle.gc_steps.specs.Walks.{WalkState};

    ghost Value = { WalkState };

    ghost view = { λ w. record {
      gates = w.gates;
      left = w.left;
      waiting = length (gates_in w.waiting);
      learnt = w.learnt;
    } };

    ghost invariant = { λ w. (0 < w.left → w.next < w.gates)
        × All (λ waits. waits.gate < w.gates) (gates_in w.waiting)
        × (w.gates ≤ 64 * length w.known) };
}

impl<B: Allocator + Copy> Walk<B> {
    /// A walk over the gates of a circuit that has this number of them, before its first pass. No gate is known. It
    /// allocates once, a bit for each gate.
    pub fn new(alloc: B, gates: u32) -> Result<Walk<B>, AllocError>
        ensures gates { IfOk result (λ walk. walk.gates ≡ gates) }
        ensures new { IfOk result
            (λ walk. (walk.left ≡ 0) × (walk.waiting ≡ 0) × (walk.learnt ≡ false)) }
    {
        Ok(Walk {
            gates,
            next: 0,
            left: 0,
            learnt: false,
            known: NumberSet::new(alloc, gates)?,
            waiting: WaitingGates::new(),
        })
    }
}

impl<B: Allocator> Walk<B> {
    /// Begins a pass over this number of gates, or over all where there are fewer, from the given one on and then round
    /// from the first. Where there is no gate of the given number, the pass begins at the first.
    pub fn begin(&mut self, first: u32, count: u32)
        ensures gates { self.new.gates ≡ self.old.gates }
        ensures left { (self.new.left ≡ min count self.old.gates) × (self.new.waiting ≡ 0) }
        ensures learnt { self.new.learnt ≡ false }
    {
        self.next = if first < self.gates { first } else { 0 };
        self.left = count.min(self.gates);
        self.learnt = false;
        self.waiting = WaitingGates::new();
    }

    /// The next gates of the pass, or none where the pass has come to all its gates and none waits. The caller ensures
    /// that the circuit has the gates of the walk.
    pub fn next<C: Allocator>(&mut self, circuit: &Circuit<C>) -> Option<GateGroup>
        requires { self.old.gates ≡ length circuit.now.gates }
        ensures group { IfSome result (IsWithin self.old.gates) }
        ensures gates { self.new.gates ≡ self.old.gates }
        ensures learnt { self.new.learnt ≡ self.old.learnt }
        ensures some { IfSome result (λ _. groups_left self.new < groups_left self.old) }
        ensures none { IfNone result ((self.new.left ≡ 0) × (self.new.waiting ≡ 0)) }
    {
        while self.left > 0 {
            let gate = self.next;
            let unknown = !self.known.has(gate);
            if unknown && self.waiting.are_read(circuit.gate(gate).operation) {
                return self.release();
            }
            self.next = if gate + 1 < self.gates { gate + 1 } else { 0 };
            self.left -= 1;
            if unknown {
                let group = self.meet(gate, circuit.gate(gate));
                if group.is_some() {
                    return group;
                }
            }
        }
        self.release()
    }

    /// Gives a gate, or has it wait if it is an AND gate: the fourth comes with the three that wait.
    fn meet(&mut self, number: u32, gate: Gate) -> Option<GateGroup>
        requires { number < self.old.gates }
        ensures group { IfSome result (IsWithin self.old.gates) }
        ensures gates { self.new.gates ≡ self.old.gates }
        ensures learnt { self.new.learnt ≡ self.old.learnt }
        ensures left { self.new.left ≡ self.old.left }
        ensures waiting { self.new.waiting ≤ self.old.waiting + 1 }
    {
        if !gate.operation.is_and() {
            return Some(GateGroup::One(number));
        }
        match (self.waiting.first, self.waiting.second, self.waiting.third) {
            (Some(first), Some(second), Some(third)) => {
                self.waiting = WaitingGates::new();
                Some(GateGroup::Four(Four {
                    a: first.gate,
                    b: second.gate,
                    c: third.gate,
                    d: number,
                }))
            }
            _ => {
                self.waiting.push(number, gate.set);
                None
            }
        }
    }

    /// The two gates that have waited longest, or the only one.
    fn release(&mut self) -> Option<GateGroup>
        ensures group { IfSome result (IsWithin self.old.gates) }
        ensures gates { self.new.gates ≡ self.old.gates }
        ensures learnt { self.new.learnt ≡ self.old.learnt }
        ensures left { self.new.left ≡ self.old.left }
        ensures some { IfSome result (λ _. self.new.waiting < self.old.waiting) }
        ensures none { IfNone result ((self.old.waiting ≡ 0) × (self.new.waiting ≡ 0)) }
    {
        let WaitingGates {
            first,
            second,
            third,
        } = self.waiting;
        let first = first?;
        let Some(second) = second else {
            self.waiting = WaitingGates::new();
            return Some(GateGroup::One(first.gate));
        };
        self.waiting = WaitingGates {
            first: third,
            second: None,
            third: None,
        };
        Some(GateGroup::Two(first.gate, second.gate))
    }

    /// Notes what a gate was returned: one that is done is known from now on.
    pub fn note(&mut self, gate: u32, answer: Answer)
        ensures gates { self.new.gates ≡ self.old.gates }
        ensures left { (self.new.left ≡ self.old.left) × (self.new.waiting ≡ self.old.waiting) }
        ensures learnt { self.new.learnt ≡ (self.old.learnt || is_learnt answer) }
    {
        if let Answer::Made(_) | Answer::Done(_) = answer {
            if gate < self.gates {
                self.known.insert(gate);
            }
            self.learnt = true;
        }
    }

    /// Whether the worker learnt of a gate in this pass: whether it noted one that is done.
    pub fn has_learnt(&self) -> bool
        ensures { result ≡ self.now.learnt }
    {
        self.learnt
    }

    /// The worker knows from now on what another one knows.
    pub fn learn_from(&mut self, other: &Walk<B>)
        ensures { self.new ≡ self.old }
    {
        self.known.add_all(&other.known);
    }

    /// No gate is known from now on, as for an evaluation of the circuit on other labels.
    pub fn forget(&mut self)
        ensures { self.new ≡ self.old }
    {
        self.known.clear();
    }
}
