//! An order that a fault has ended.

ghost use Rattle.std.specs.Prelude.{◌≡◌, map, IfSome};
ghost use Rattle.gc_file.specs.GarbledFile.{IsGarbledFile};
ghost use Rattle.gc_file.specs.LabelFile.{IsLabelFile};
ghost use Rattle.gc_order.specs.Order.{order_text};
ghost use Rattle.gc_disk.specs.Files.{GivesFile};
ghost use Rattle.gc_command.specs.CircuitFile.{IsCircuit};
ghost use Rattle.gc_command.specs.Eval.{AreLabelFiles};
ghost use Rattle.gc_explain.specs.Explain as spec;

use gc_circuit::Circuit;
use gc_disk::{Cause, Reread};
use gc_file::{Garbled, LabelFile, read_garbled, read_labels};
use gc_order::Order;
use std::alloc::Allocator;
use std::convert::AsStr;

/// An order that a fault has ended, and what explains the fault.
#[derive(Drop)]
pub struct Ended<'a, A: Allocator, F> {
    /// The allocator.
    pub alloc: A,
    /// The order.
    pub order: &'a Order,
    /// The files, which are reread.
    pub files: &'a F,
    /// How many files the order opened.
    pub opened: u64,
    /// Why standard output can't be written, where that is the fault.
    pub printing: Option<Cause>,
}

impl<A: Allocator + Copy, F: Reread> Ended<'_, A, F> {
    /// The name of the circuit's file.
    pub(crate) fn circuit(&self) -> &str
        ensures { result.now ≡ spec.circuit_name (order_text self.now.order.now) }
    {
        let circuit = match self.order {
            Order::Run(run) => &run.circuit,
            Order::Plain(plain) => &plain.circuit,
            Order::Check { circuit } => circuit,
            Order::Locate { circuit } => circuit,
            Order::Stats { circuit } => circuit,
            Order::ByDepth(order) => &order.circuit,
            Order::Garble(garble) => &garble.circuit,
            Order::Deal(deal) => &deal.circuit,
            Order::Eval(eval) => &eval.circuit,
            Order::Jobs(jobs) => &jobs.circuit,
            Order::Labels(labels) => &labels.circuit,
            Order::Audit(audit) => &audit.circuit,
        };
        circuit.as_str()
    }

    /// The bytes of the file of this name, where it can be reread.
    pub(crate) fn read_again(&self, name: &str) -> Option<Vec<u8, A>>
        ensures { IfSome result
            (λ bytes. GivesFile (F.bytes self.now.files.now name.now) bytes.items) }
    {
        self.files.read_again(self.alloc, name)
    }

    /// The circuit of the file of this name.
    pub(crate) fn circuit_again(&self, name: &str) -> Option<Circuit<A>>
        ensures { IfSome result (λ circuit.
            IfSome (F.bytes self.now.files.now name.now) (λ held. IsCircuit held circuit)) }
    {
        let text = self.read_again(name)?;
        Circuit::read(self.alloc, &text).ok()
    }

    /// The garbled file of this name.
    pub(crate) fn garbled_again(&self, name: &str) -> Option<Garbled<A>>
        ensures { IfSome result (λ garbled.
            IfSome (F.bytes self.now.files.now name.now) (λ held. IsGarbledFile held garbled)) }
    {
        let bytes = self.read_again(name)?;
        read_garbled(self.alloc, &bytes).ok()
    }

    /// The label files of these names.
    pub(crate) fn labels_again<N: AsStr>(&self, names: &[N]) -> Option<Vec<LabelFile<A>, A>>
        ensures { IfSome result (λ labels.
            AreLabelFiles (F.bytes self.now.files.now) (map N.text names.now) labels.items) }
    {
        let mut labels = Vec::with_capacity(self.alloc, names.len()).ok()?;
        for name in names {
            labels.push(self.label_file_again(name.as_str())?).ok()?;
        }
        Some(labels)
    }

    /// The label file of this name.
    pub(crate) fn label_file_again(&self, name: &str) -> Option<LabelFile<A>>
        ensures { IfSome result (λ file.
            IfSome (F.bytes self.now.files.now name.now) (λ held. IsLabelFile held file)) }
    {
        let bytes = self.read_again(name)?;
        read_labels(self.alloc, &bytes).ok()
    }
}
