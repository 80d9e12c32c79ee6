//! Which files have failed, which contracts alone read.

ghost use Rattle.std.specs.Prelude.{◌≡◌, ◌++◌, ◌∷◌, [], replicate};

use crate::seen_name::SeenName;
use gc_file::{Sink, Source};
use std::marker::Model;
use std::snapshot::Snapshot;

/// Which files have failed, as contracts see it: for each call that failed the name of its file, in order. A sink that
/// was kept and a source that was shut add as many as they have counted. No code holds it, and it doesn't allocate.
#[derive(Drop)]
pub struct FileFailures<K: Sink, S: Source> {
    history: FileHistory<K, S>,
}

/// No failure yet; or what was before, with the name of a file, of which a call failed, a sink was kept, or a source
/// was shut. Snapshots have no bytes.
#[derive(Drop)]
enum FileHistory<K, S> {
    Start,
    Failed(Snapshot<FileHistory<K, S>>, Snapshot<SeenName>),
    Kept(Snapshot<FileHistory<K, S>>, Snapshot<SeenName>, Snapshot<K>),
    Shut(Snapshot<FileHistory<K, S>>, Snapshot<SeenName>, Snapshot<S>),
}

impl<K: Sink, S: Source> Model for FileFailures<K, S> {
    ghost use Rattle.std.specs.Prelude.{ℕ, List};
    ghost use Rattle.gc_disk.specs.FileFailures.{failed_files};

    ghost Value = { List (List ℕ) };

    ghost view = { λ f. failed_files K.failures S.failures f.history };
}

impl<K: Sink, S: Source> FileFailures<K, S> {
    /// No failure yet.
    pub fn new() -> FileFailures<K, S>
        ensures { result ≡ [] }
    {
        FileFailures {
            history: FileHistory::Start,
        }
    }

    /// Adds a call on the file of this name that failed.
    pub fn add_one(&mut self, name: &str)
        ensures { self.new ≡ self.old ++ name.now ∷ [] }
    {
        let before = Snapshot::of(&self.history);
        let name = SeenName::of(name);
        self.history = FileHistory::Failed(before, Snapshot::of(&name));
    }

    /// Adds the failures of a sink of the file of this name.
    pub fn add_sink(&mut self, name: &str, sink: &K)
        ensures { self.new ≡ self.old ++ replicate (K.failures sink.now) name.now }
    {
        let before = Snapshot::of(&self.history);
        let name = SeenName::of(name);
        self.history = FileHistory::Kept(before, Snapshot::of(&name), Snapshot::of(sink));
    }

    /// Adds the failures of a source of the file of this name.
    pub fn add_source(&mut self, name: &str, source: &S)
        ensures { self.new ≡ self.old ++ replicate (S.failures source.now) name.now }
    {
        let before = Snapshot::of(&self.history);
        let name = SeenName::of(name);
        self.history = FileHistory::Shut(before, Snapshot::of(&name), Snapshot::of(source));
    }
}
