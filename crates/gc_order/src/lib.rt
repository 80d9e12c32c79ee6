//! The command line of `halfgates`: the order that its arguments spell, by clap's rules.
#![tactic(auto)]

mod commands;
mod help;
mod order;
mod words;

pub use order::{
    Asked, AuditOrder, ByDepthOrder, DealOrder, EvalOrder, GarbleOrder, JobsOrder, LabelsOrder,
    Order, PlainOrder, RunOrder, asked_of, order_of,
};
