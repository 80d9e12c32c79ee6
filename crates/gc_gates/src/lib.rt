//! The words of gates that many seats work on, and the six kinds of atomic step on them.
//!
//! A gate has three words: its state and two halves of what is learnt about it. A state word holds the state (bits 0
//! and 1: free, in hand or done) and the round that it is of (bits 32 to 63). A state of an earlier round counts as
//! free, so words that go to a later round have nothing to clear. What holds of these words between any two atomic
//! steps is `Sound` in `specs/Gates.antt`.
//!
//! Where the words lie, which round they are in and what else its table keeps is a [`Frame`]'s. There are two: the
//! rule of a table of two banks (`gc_rounds`), and [`OneRound`], the rule of one board, which is in round 0 for good.
//! Nothing here knows of circuits: [`Subject`] says what the words are about.
#![tactic(auto)]

mod bank_seats;
mod banks;
mod board;
mod board_seats;
mod frame;
mod kinds;
mod steps;
mod view;

pub use bank_seats::{BankTable, BankWords, learn_once, open_banks};
pub use board::OneRound;
pub use board_seats::{
    BoardWords, close_board, copy_known, deal_seat, free_words, join_seat, open_board,
};
pub use frame::Frame;
pub use steps::{
    GateAt, Place, Words, claim, load_high, load_low, load_state, store_done, store_high, store_low,
};
pub use view::{GateView, Hand, Subject};
