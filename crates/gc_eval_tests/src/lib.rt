//! The tests of jobs, boards and banks, and of the evaluation of a job and of lists of jobs on one thread and many.
#![tactic(auto)]

#[cfg(test)]
mod bank_growth;
#[cfg(test)]
mod banks;
#[cfg(test)]
mod boards;
#[cfg(test)]
mod fixtures;
#[cfg(test)]
mod growth;
#[cfg(test)]
mod jobs;
#[cfg(test)]
mod rounds;
#[cfg(test)]
mod workers;
