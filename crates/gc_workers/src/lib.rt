//! What workers that garble or evaluate a circuit together share: how many there may be, their [`Crew`], the
//! [`Gatehouse`], which observes them, whether they share a circuit at all, sets of numbers, and, of boards and
//! banks, the states of a gate, why these can't be opened or closed, and sums over lists.
#![tactic(auto)]

mod crew;
mod fault;
mod gatehouse;
mod number_set;
mod states;
mod way;

pub use crew::Crew;
pub use fault::{CloseRefused, OpenFault};
pub use gatehouse::{Gatehouse, Open, report_all};
pub use number_set::NumberSet;
pub use states::{DONE, FREE, IN_HAND};
pub use way::{Way, way_of};

/// The most workers that garble or evaluate together, seats of a board or of banks, and tallies of a store.
pub const MAX_WORKERS: u32 = 64;
