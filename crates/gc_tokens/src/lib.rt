//! A cursor over a text: its tokens one after another, as numbers and as gates, and the places where tokens and lines
//! begin.
//!
//! A token is a run of bytes that are no blanks, and the four blanks are tab, line feed, carriage return and space. Any
//! bytes are a text, and no call here allocates.
#![tactic(auto)]

mod back;
mod digits;
mod gates;
mod line;
mod number;
mod tokens;

pub use back::{column_after, line_after};
pub use gates::read_gate;
pub use number::is_blank;
pub use tokens::Tokens;
