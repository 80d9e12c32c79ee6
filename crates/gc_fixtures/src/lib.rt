//! What the tests of several crates share: an allocator that refuses a chosen allocation, calls whose allocations are
//! refused in turn, files in memory, circuits and their files, a comparison, and observers: they let workers meet,
//! count gates, or know the calling thread.
#![tactic(auto)]

pub mod calling;
pub mod circuits;
pub mod compare;
pub mod counting;
pub mod files;
pub mod growths;
pub mod meeting;
mod mem_files;
pub mod refusing;

pub use mem_files::{Limits, MemFiles};
