//! What a garbled file is made of.

ghost use Rattle.std.specs.Prelude.{◌≡◌};
ghost use Rattle.gc_file.specs.GarbledFile as files;

use gc_label::Label;

/// The version of a garbled file.
#[derive(Clone, Copy, PartialEq, Eq, Debug)]
pub enum Version {
    /// Digest, rows and decode bits.
    One,
    /// With an entry pair for each output wire.
    Two,
}

impl Version {
    /// The first eight bytes of a garbled file of this version.
    pub fn magic(self) -> [u8; 8]
        ensures { result ≡ files.magic self }
    {
        match self {
            Version::One => *b"HGARBLE1",
            Version::Two => *b"HGARBLE2",
        }
    }

    /// How many entry pairs a garbled file of this version has, for this number of output wires.
    pub fn entry_count(self, outputs: u32) -> u32
        ensures { result ≡ files.entry_count self outputs }
    {
        match self {
            Version::One => 0,
            Version::Two => outputs,
        }
    }
}

/// The entries of an output wire, by which its two labels are recognised: each is the hash of the label of its colour.
#[derive(Clone, Copy, PartialEq, Eq, Debug)]
pub struct EntryPair {
    /// The entry of the label of colour 0.
    pub entry_zero: Label,
    /// The entry of the label of colour 1.
    pub entry_one: Label,
}
