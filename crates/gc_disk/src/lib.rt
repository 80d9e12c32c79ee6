//! Files as commands see them: by name, and which of them have failed.
#![tactic(auto)]

mod cause;
mod file_failures;
mod file_log;
mod files;
mod host_files;
mod noting;
mod replacement;
mod reread;
mod seen_name;

pub use cause::Cause;
pub use file_failures::FileFailures;
pub use file_log::FileLog;
pub use files::{FileError, Files};
pub use host_files::{HostFiles, HostSink, read_all};
pub use noting::Noting;
pub use reread::Reread;
