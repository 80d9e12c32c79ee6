//! Tasks, and tasks that are sealed: garbled.

ghost use Rattle.std.specs.Prelude.{◌≡◌, IsTrue};
ghost use Rattle.gc_netlist.specs.Circuit.{is_and};
ghost use Rattle.gc_half.specs.Hash.{hash};
ghost use Rattle.gc_half.specs.HalfGate.{and_garbled};
ghost use Rattle.gc_store.specs.Task.{sealed_zero_label, sealed_rows};

use gc_circuit::Operation;
use gc_half::{AndGate, GarbledAnd, RowPair, garble_gate, garble_two_ands};
use gc_label::{Label, Offset};
use std::marker::Model;

/// All that garbling one gate takes.
#[derive(Clone, Copy, PartialEq, Eq, Debug)]
pub struct Task {
    /// The gate's place in the file, counted from 0.
    pub gate: u32,
    /// What the gate computes: its wires, or for EQ its constant.
    pub operation: Operation,
    /// How many AND gates come before the gate in the file.
    pub and_number: u32,
    /// The offset of the garbling.
    pub offset: Offset,
    /// The zero label of the wire that the gate reads first, [`Label::ZERO`] where it reads none.
    pub first: Label,
    /// The zero label of the wire that the gate reads second, [`Label::ZERO`] where it reads no second.
    pub second: Label,
}

impl Task {
    /// The task's gate, as an AND gate.
    #[inline]
    fn and_gate(&self) -> AndGate
        ensures k { result.k ≡ self.now.and_number }
        ensures offset { result.offset ≡ self.now.offset }
        ensures first { result.a ≡ self.now.first }
        ensures second { result.b ≡ self.now.second }
    {
        AndGate {
            k: self.and_number,
            offset: self.offset,
            a: self.first,
            b: self.second,
        }
    }
}

/// A task that is garbled: the zero label of the wire that its gate sets and, where it is AND, its row pair.
/// A contract sees the task, which the label and the rows follow from.
#[derive(Clone, Copy, PartialEq, Eq, Debug)]
pub struct Sealed {
    task: Task,
    zero_label: Label,
    rows: Option<RowPair>,
}

impl Model for Sealed {
    ghost use Rattle.std.specs.Prelude.{◌≡◌};
    ghost use Rattle.gc_store.specs.declared.task.Task.{Task};
    ghost use Rattle.gc_store.specs.Task.{sealed_zero_label, sealed_rows};

    ghost Value = { Task };

    ghost view = { λ s. s.task };

    ghost invariant = { λ s. (s.zero_label ≡ sealed_zero_label s.task)
        × (s.rows ≡ sealed_rows s.task) };

    ghost inverse = { λ t.
        record { task = t; zero_label = sealed_zero_label t; rows = sealed_rows t } };
}

impl Sealed {
    /// Garbles a task. It doesn't allocate.
    #[inline]
    pub fn make(task: Task) -> Sealed
        ensures { result ≡ task }
    {
        let (zero_label, rows) = garble_gate(
            task.and_number,
            task.offset,
            task.operation,
            (task.first, task.second),
        );
        Sealed {
            task,
            zero_label,
            rows,
        }
    }

    /// Garbles two tasks, at once where both gates are AND. It doesn't allocate.
    #[inline]
    pub fn make_two(one: Task, other: Task) -> (Sealed, Sealed)
        ensures one { result.0 ≡ one }
        ensures other { result.1 ≡ other }
    {
        match (one.operation, other.operation) {
            (Operation::And(_, _), Operation::And(_, _)) => {
                let (garbled, other_garbled) = garble_two_ands(one.and_gate(), other.and_gate());
                (
                    Sealed::of_and(one, garbled),
                    Sealed::of_and(other, other_garbled),
                )
            }
            _ => (Sealed::make(one), Sealed::make(other)),
        }
    }

    /// A task whose gate is AND, with what garbling it gave.
    #[inline]
    fn of_and(task: Task, garbled: GarbledAnd) -> Sealed
        requires and { IsTrue (is_and task.operation) }
        requires garbled { garbled ≡ and_garbled hash task.and_number task.offset
            task.first task.second }
        ensures { result ≡ task }
    {
        Sealed {
            task,
            zero_label: garbled.zero_label,
            rows: Some(garbled.rows),
        }
    }

    /// The task that was garbled.
    pub fn task(&self) -> Task
        ensures { result ≡ self.now }
    {
        self.task
    }

    /// The zero label of the wire that the task's gate sets.
    pub fn zero_label(&self) -> Label
        ensures { result ≡ sealed_zero_label self.now }
    {
        self.zero_label
    }

    /// The row pair, where the task's gate is AND.
    pub fn rows(&self) -> Option<RowPair>
        ensures { result ≡ sealed_rows self.now }
    {
        self.rows
    }
}
