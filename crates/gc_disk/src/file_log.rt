//! Which file was opened last.

ghost use Rattle.std.specs.Prelude.{◌≡◌, None, Some};

use crate::cause::Cause;
use arrayvec::ArrayString;

/// The bytes of the longest name that is kept. Linux opens no longer one.
const LONGEST: usize = 4_096;

/// The name of the file that was opened last, how many were opened, and why the last call that failed did. It doesn't
/// allocate.
#[derive(Drop)]
pub struct FileLog {
    name: ArrayString<LONGEST>,
    opened: u64,
    cause: Option<Cause>,
}

impl FileLog {
    /// No file was opened yet.
    pub fn new() -> FileLog
        ensures { result.cause ≡ None }
    {
        FileLog {
            name: ArrayString::new(),
            opened: 0,
            cause: None,
        }
    }

    /// Adds the file of this name, which is about to be opened. Of a name that is longer than any that Linux opens
    /// nothing is kept.
    pub fn open(&mut self, name: &str)
        ensures { self.new.cause ≡ self.old.cause }
    {
        self.name.clear();
        let _ = self.name.try_push_str(name);
        self.opened = self.opened.saturating_add(1);
    }

    /// Adds why a call on the file that was opened last failed.
    pub fn fail(&mut self, cause: Cause)
        ensures { self.new.cause ≡ Some cause }
    {
        self.cause = Some(cause);
    }

    /// The name of the file that was opened last.
    pub fn name(&self) -> &str {
        self.name.as_str()
    }

    /// How many files were opened.
    pub fn opened(&self) -> u64 {
        self.opened
    }

    /// Why the last call that failed did.
    pub fn cause(&self) -> Option<Cause>
        ensures { result ≡ self.now.cause }
    {
        self.cause
    }
}
