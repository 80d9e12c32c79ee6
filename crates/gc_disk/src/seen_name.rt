//! The name of a file, which contracts alone read.

ghost use Rattle.std.specs.Prelude.{◌≡◌, ◌++◌, ◌∷◌, []};

use std::marker::Model;
use std::snapshot::Snapshot;

/// The name of a file, as contracts see it. No code holds it, and it doesn't allocate.
#[derive(Drop)]
pub struct SeenName {
    letters: Letters,
}

/// No byte yet, or one more after those of a snapshot, which has no bytes.
#[derive(Drop)]
enum Letters {
    Start,
    Then(Snapshot<Letters>, Snapshot<u8>),
}

impl Model for SeenName {
    ghost use Rattle.std.specs.Prelude.{ℕ, List};
    ghost use Rattle.gc_disk.specs.SeenName.{bytes_of};

    ghost Value = { List ℕ };

    ghost view = { λ n. bytes_of n.letters };
}

impl SeenName {
    /// The name in a text.
    pub fn of(name: &str) -> SeenName
        ensures { result ≡ name.now }
    {
        let mut seen = SeenName {
            letters: Letters::Start,
        };
        for byte in name.as_bytes() {
            seen.push(byte);
        }
        seen
    }

    /// Adds a byte.
    fn push(&mut self, byte: &u8)
        ensures { self.new ≡ self.old ++ byte.now ∷ [] }
    {
        self.letters = Letters::Then(Snapshot::of(&self.letters), Snapshot::of(byte));
    }
}
