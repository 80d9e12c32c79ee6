//! The words of two banks, through which seats enter, leave, seal and reopen rounds.
//!
//! Bank 0 serves the even rounds and bank 1 the odd ones, each in order. A bank's word holds how many seats are counted
//! in (bits 0 to 15), the mark of a sealed bank (bit 16) and the round (bits 32 to 63). [`Rule`] is what holds of these
//! words, and of what the seats know of them, between any two atomic steps. Four kinds of step change a bank's word:
//! an addition of 1 to enter, a subtraction of 1 to leave, an or of the mark to seal, and an exchange to reopen.
//!
//! The table has other words too. What holds of these is an [`Inner`] rule, which the steps on the banks' words keep
//! ([`KeptInner`]).
#![tactic(auto)]

mod calls;
mod inner;
mod kinds;
mod rule;
mod seats;
mod steps;
mod view;
mod words;

pub use calls::{Entry, Reopening, enter, leave, reopen, seal};
pub use inner::{Inner, KeptInner};
pub use rule::Rule;
pub use seats::{WordTable, deal_place, join_place, open_table};
pub use steps::{Place, Words};
pub use view::{Key, Position, Step, View};
pub use words::{MARK, MAX_JOBS, ROUND, stamped};
