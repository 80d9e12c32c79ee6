//! The explanation of any fault.

ghost use Rattle.std.specs.Prelude.{◌≡◌, [], IfSome};
ghost use Rattle.gc_order.specs.Order.{order_text};
ghost use Rattle.gc_explain.specs.Explain.{Explains, IsPlace};

use crate::ended::Ended;
use crate::sentence::{Explanation, alone, on_file};
use gc_circuit::{ReadFault, ValueFault};
use gc_command::Fault;
use gc_disk::Reread;
use gc_file::FileFault;
use gc_job::{BindFault, EvalFault};
use gc_order::Order;
use gc_work::WorkFault;
use std::alloc::Allocator;
use std::str;

impl<A: Allocator + Copy, F: Reread> Ended<'_, A, F> {
    /// The line that explains the fault that ended the order: `halfgates: `, the place, where there is one, and a
    /// sentence. Files are reread for it. There is no line where they no longer show the fault, or where memory is
    /// refused.
    pub fn explain(&self, fault: Fault) -> Option<Vec<u8, A>>
        ensures { IfSome result (λ line.
            Explains (F.bytes self.now.files.now) (order_text self.now.order.now) fault line.items) }
    {
        let explanation = self.explanation_of(fault)?;
        explanation.line(self.alloc).ok()
    }

    /// Explains the fault.
    fn explanation_of(&self, fault: Fault) -> Option<Explanation<A>>
        ensures { IfSome result (λ it. IsPlace (F.bytes self.now.files.now)
            (order_text self.now.order.now) fault it.place.items) }
    {
        match fault {
            Fault::Circuit(ReadFault::Memory) => self.explain_memory(),
            Fault::Circuit(fault) => self.explain_circuit(fault),
            Fault::File(FileFault::Memory) => self.explain_memory(),
            Fault::File(fault) => self.explain_file(fault),
            Fault::Evaluation(EvalFault::UnknownOutputLabel { output }) => {
                self.explain_output(output)
            }
            other => self.explain_other(other),
        }
    }

    /// Explains a fault that is neither in a circuit's text nor in the form of a file.
    fn explain_other(&self, fault: Fault) -> Option<Explanation<A>> {
        match fault {
            Fault::WrongCount => self.explain_count(),
            Fault::Value(ValueFault::Memory) => self.explain_memory(),
            Fault::Value(fault) => self.explain_value(fault),
            Fault::BadSeed => self.explain_seed(),
            Fault::NoSuchValue => self.explain_index(),
            Fault::Garbling(WorkFault::BadWorkers) | Fault::Evaluation(EvalFault::BadWorkers) => {
                self.explain_workers()
            }
            Fault::Binding(BindFault::Memory) => self.explain_memory(),
            Fault::Binding(fault) => self.explain_binding(fault),
            Fault::BadList => self.explain_list(),
            Fault::CannotRead => self.explain_reading(),
            Fault::CannotWrite => self.explain_writing(),
            _ => self.explain_memory(),
        }
    }

    /// Explains that memory ran out.
    fn explain_memory(&self) -> Option<Explanation<A>>
        ensures { IfSome result (λ it. it.place.items ≡ []) }
    {
        alone(self.alloc, String::from_str(self.alloc, "memory ran out"))
    }

    /// Explains why a text is no list of jobs.
    fn explain_list(&self) -> Option<Explanation<A>> {
        let Order::Jobs(jobs) = self.order else {
            return None;
        };
        let list = jobs.list.as_str();
        let text = self.read_again(list)?;
        let sentence = match str::from_utf8(&text) {
            Ok(_) => String::from_str(self.alloc, "the list has more than 65536 jobs"),
            Err(error) => {
                let byte = error.valid_up_to();
                format!(in self.alloc; "byte {byte}: the list is not UTF-8")
            }
        };
        on_file(self.alloc, list, sentence)
    }
}
