//! Faults of a circuit's text.

ghost use Rattle.std.specs.Prelude.{IfSome};
ghost use Rattle.gc_order.specs.Order.{order_text};
ghost use Rattle.gc_explain.specs.Explain.{circuit_name, IsCircuitPlace};

use crate::ended::Ended;
use crate::sentence::{Explanation, located_place, on_file};
use gc_circuit::{Circuit, ReadFault, meaning_of, sentence_of};
use gc_disk::Reread;
use std::alloc::Allocator;

impl<A: Allocator + Copy, F: Reread> Ended<'_, A, F> {
    /// Explains a fault of the circuit. Where its file can't be reread, or has another fault now, the place is the
    /// whole file.
    pub(crate) fn explain_circuit(&self, fault: ReadFault) -> Option<Explanation<A>>
        ensures { IfSome result (λ it.
            IsCircuitPlace (F.bytes self.now.files.now (circuit_name
            (order_text self.now.order.now)))
            (circuit_name (order_text self.now.order.now)) fault it.place.items) }
    {
        let name = self.circuit();
        if let Some(text) = self.read_again(name) {
            if let Ok(Some(located)) = Circuit::locate(self.alloc, &text) {
                if located.fault == fault {
                    let sentence = sentence_of(&text, &located);
                    return Some(Explanation {
                        place: located_place(self.alloc, name, &located).ok()?,
                        sentence: String::from_str(self.alloc, sentence.as_str()).ok()?,
                    });
                }
            }
        }
        on_file(
            self.alloc,
            name,
            String::from_str(self.alloc, meaning_of(fault)),
        )
    }
}
