//! Faults of values, seeds and numbers on the command line.

use crate::ended::Ended;
use crate::sentence::{Explanation, alone};
use gc_circuit::{ValueFault, read_value};
use gc_disk::Reread;
use gc_order::Order;
use gc_tokens::is_blank;
use std::alloc::{AllocError, Allocator};
use std::str;

/// How many tokens of a circuit's file come before the widths of its input values.
const BEFORE_WIDTHS: usize = 3;

/// How many input values a circuit has at most.
const MOST_VALUES: usize = 256;

/// The text that is given for an input value.
#[derive(Clone, Copy)]
struct GivenValue<'a> {
    index: u64,
    text: &'a [u8],
    width: u32,
}

impl GivenValue<'_> {
    /// The sentence on a value with this fault.
    fn sentence<A: Allocator + Copy>(
        self,
        alloc: A,
        fault: ValueFault,
    ) -> Result<String<A>, AllocError> {
        let (index, width) = (self.index, self.width);
        let what = match (fault, self.text) {
            (ValueFault::WrongLength, [b'x', digits @ ..]) => {
                let (found, due) = (digits.len(), 2 * width.div_ceil(8));
                format!(in alloc;
                    "has length {found} after x, in place of {due}; its width is {width}"
                )?
            }
            (ValueFault::WrongLength, digits) => {
                let found = digits.len();
                format!(in alloc; "has length {found}, in place of {width}")?
            }
            (ValueFault::BadDigit, [b'x', ..]) => {
                String::from_str(
                    alloc,
                    "has a character after x that is no hexadecimal digit",
                )?
            }
            (ValueFault::BadDigit, _) => {
                String::from_str(alloc, "has a character that is neither 0 nor 1")?
            }
            (ValueFault::SpareBits, _) => {
                format!(in alloc; "sets a bit beyond its width of {width}")?
            }
            (ValueFault::Memory, _) => String::from_str(alloc, "doesn't fit in memory")?,
        };
        let what = what.as_str();
        format!(in alloc; "value {index}, counted from 0, {what}")
    }
}

impl<A: Allocator + Copy, F: Reread> Ended<'_, A, F> {
    /// Explains a wrong number of values.
    pub(crate) fn explain_count(&self) -> Option<Explanation<A>> {
        let given = values_of(self.order)?.len();
        let due = self.input_widths()?.len();
        alone(
            self.alloc,
            format!(in self.alloc;
                "the circuit has {due} input values, and the number of values is {given}"
            ),
        )
    }

    /// Explains an index that no input value has.
    pub(crate) fn explain_index(&self) -> Option<Explanation<A>> {
        let Order::Deal(deal) = self.order else {
            return None;
        };
        let index = deal.index;
        let count = self.input_widths()?.len();
        alone(
            self.alloc,
            format!(in self.alloc;
                "the index is {index}, and the circuit has {count} input values, counted from 0"
            ),
        )
    }

    /// Explains this fault by the first value that has it.
    pub(crate) fn explain_value(&self, fault: ValueFault) -> Option<Explanation<A>> {
        let widths = self.input_widths()?;
        if let Order::Deal(deal) = self.order {
            let value = GivenValue {
                index: u64::from(deal.index),
                text: deal.value.as_bytes(),
                width: *widths.get(deal.index as usize)?,
            };
            return alone(self.alloc, value.sentence(self.alloc, fault));
        }
        let mut index = 0u64;
        for (value, width) in values_of(self.order)?.iter().zip(&widths) {
            let (text, width) = (value.as_bytes(), *width);
            if read_value(self.alloc, text, width).err() == Some(fault) {
                let value = GivenValue { index, text, width };
                return alone(self.alloc, value.sentence(self.alloc, fault));
            }
            index = index.saturating_add(1);
        }
        None
    }

    /// Explains why a text is no seed.
    pub(crate) fn explain_seed(&self) -> Option<Explanation<A>> {
        let count = seed_of(self.order)?.len();
        if count == 64 {
            let sentence = "a character of the seed is no hexadecimal digit";
            return alone(self.alloc, String::from_str(self.alloc, sentence));
        }
        alone(
            self.alloc,
            format!(in self.alloc;
                "the length of the seed is {count}, and 64 hexadecimal digits are expected"
            ),
        )
    }

    /// Explains a number of workers that is out of range.
    pub(crate) fn explain_workers(&self) -> Option<Explanation<A>> {
        let workers = workers_of(self.order)?;
        alone(
            self.alloc,
            format!(in self.alloc; "the number of workers is {workers}, but must be 1 to 64"),
        )
    }

    /// The widths of the circuit's input values, where its file can be reread.
    fn input_widths(&self) -> Option<Vec<u32, A>> {
        let text = self.read_again(self.circuit())?;
        let tokens = first_tokens(self.alloc, &text).ok()?;
        let count = number_of(tokens.get(BEFORE_WIDTHS - 1)?)? as usize;
        let mut widths = Vec::with_capacity(self.alloc, count.min(MOST_VALUES)).ok()?;
        for token in tokens.iter().skip(BEFORE_WIDTHS).take(count) {
            widths.push(number_of(token)?).ok()?;
        }
        Some(widths)
    }
}

/// The tokens of a circuit's file up to the last width that an input value can have.
fn first_tokens<A: Allocator>(alloc: A, text: &[u8]) -> Result<Vec<&[u8], A>, AllocError> {
    text.split(|byte| is_blank(*byte))
        .filter(|part| !part.is_empty())
        .take(BEFORE_WIDTHS + MOST_VALUES)
        .collect(alloc)
}

/// The number that a token is.
fn number_of(token: &[u8]) -> Option<u32> {
    str::from_utf8(token).ok()?.parse::<u32>().ok()
}

/// The texts of the values of an order.
fn values_of(order: &Order) -> Option<&[String]> {
    match order {
        Order::Run(run) => Some(run.values.as_slice()),
        Order::Plain(plain) => Some(plain.values.as_slice()),
        Order::Labels(labels) => Some(labels.values.as_slice()),
        _ => None,
    }
}

/// The text of the seed of an order.
fn seed_of(order: &Order) -> Option<&str> {
    match order {
        Order::Run(run) => Some(run.seed.as_str()),
        Order::Garble(garble) => Some(garble.seed.as_str()),
        Order::Deal(deal) => Some(deal.seed.as_str()),
        Order::Labels(labels) => Some(labels.seed.as_str()),
        Order::Audit(audit) => Some(audit.seed.as_str()),
        _ => None,
    }
}

/// The number of workers of an order.
fn workers_of(order: &Order) -> Option<u32> {
    match order {
        Order::Run(run) => Some(run.workers),
        Order::Garble(garble) => Some(garble.workers),
        Order::Eval(eval) => Some(eval.workers),
        Order::Jobs(jobs) => Some(jobs.workers),
        _ => None,
    }
}
