//! The tests of circuits, values, garbling and files, of stores, alone and shared by threads, of pools of tasks, and of
//! garbling on many threads: each growth of a call refused in turn, calls that don't allocate, sources and sinks that
//! fail, the order in which gates are ready, full pools and missing thieves.
#![tactic(auto)]

#[cfg(test)]
mod file_growth;
#[cfg(test)]
mod fixtures;
#[cfg(test)]
mod growth;
#[cfg(test)]
mod pieces;
#[cfg(test)]
mod pools;
#[cfg(test)]
mod reading;
#[cfg(test)]
mod reports;
#[cfg(test)]
mod shared_stores;
#[cfg(test)]
mod sleepers;
#[cfg(test)]
mod stores;
#[cfg(test)]
mod workers;
