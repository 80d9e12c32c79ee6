//! The program `halfgates` as a library: its command line, carrying out any order, and what it prints.
#![tactic(auto)]

mod arguments;
mod command_line;
mod order_result;
mod orders;
mod output;
mod program;
mod progress_line;
mod whole_run;

pub use arguments::{Refusal, arguments_of};
pub use command_line::Heap;
pub use gc_command::Fault;
pub use gc_disk::Files;
pub use gc_order::{Order, order_of};
pub use order_result::{Lines, OrderResult};
pub use orders::carry_out;
pub use output::{Console, Output};
pub use program::{DISHONEST, DONE, FAULT, USAGE, refuse_line};
pub use progress_line::ProgressLine;
pub use whole_run::serve;
