//! The tests of commands that need what no disk gives: files that fail at each call and in mid-stream, each growth
//! refused in turn, lists of jobs of which it is known which files were opened, and the steps that commands report.
#![tactic(auto)]

#[cfg(test)]
mod explain;
#[cfg(test)]
mod failing_files;
#[cfg(test)]
mod files;
#[cfg(test)]
mod growth;
#[cfg(test)]
mod host_files;
#[cfg(test)]
mod job_lists;
#[cfg(test)]
mod jobs;
#[cfg(test)]
mod progress;
#[cfg(test)]
mod refusals;
