//! The seed of a garbling.

ghost use Rattle.std.specs.Prelude.{◌≡◌, ◌↔◌, IsOk, IfOk, Ok, codes};
ghost use Rattle.hex.specs.Hex.{decode_of};
ghost use Rattle.gc_label.specs.Seed.{IsSeedText};

use gc_circuit::byte_of;
use std::error::Error;
use std::fmt;
use std::marker::Model;

/// What a garbling's offset and input labels are made of: 32 bytes, the key of a keystream.
#[derive(Clone, Copy, PartialEq, Eq, Debug)]
pub struct Seed {
    bytes: [u8; 32],
}

impl Model for Seed {
    ghost use Rattle.std.specs.Prelude.{ℕ, List};

    ghost Value = { List ℕ };

    ghost view = { λ s. s.bytes };

    ghost inverse = { λ b. record { bytes = b } };
}

impl Seed {
    /// The seed of these bytes.
    pub fn from_bytes(bytes: [u8; 32]) -> Seed
        ensures { result ≡ bytes }
    {
        Seed { bytes }
    }

    /// Reads a seed of 64 hexadecimal digits, in either case, and refuses any other text. All digits are read before
    /// that is decided, and no branch and no address depends on one.
    pub fn from_hex(text: &str) -> Result<Seed, BadSeed>
        ensures accepts { IsOk result ↔ IsSeedText text.now }
        ensures bytes { IfOk result (λ seed. decode_of text.now ≡ Ok seed) }
    {
        let digits = text.as_bytes();
        if digits.len() != 64 {
            return Err(BadSeed);
        }
        let mut bytes = [0; 32];
        let mut are_digits = true;
        for i in 0..32 {
            let (byte, is_byte) = byte_of(digits[2 * i], digits[2 * i + 1]);
            bytes[i] = byte;
            are_digits &= is_byte;
        }
        if are_digits {
            Ok(Seed::from_bytes(bytes))
        } else {
            Err(BadSeed)
        }
    }

    /// The bytes of the seed.
    pub fn to_bytes(self) -> [u8; 32]
        ensures { result ≡ self }
    {
        self.bytes
    }
}

/// A text that is not 64 hexadecimal digits.
#[derive(Clone, Copy, Debug, PartialEq, Eq)]
pub struct BadSeed;

impl BadSeed {
    /// The number of the fault.
    pub fn code(self) -> u32
        ensures { result ≡ 18 }
    {
        18
    }

    /// Its name.
    pub fn name(self) -> &'static str
        ensures { result.now ≡ codes "BadSeed" }
    {
        "BadSeed"
    }
}

impl fmt::Display for BadSeed {
    ghost use Rattle.std.specs.Prelude.{Some, codes};

    ghost output = { λ _. Some (codes "a seed is 64 hexadecimal digits") };

    fn fmt<W: fmt::Write>(&self, f: &mut fmt::Formatter<W>) -> fmt::Result {
        f.write_str("a seed is 64 hexadecimal digits")
    }
}

impl Error for BadSeed {}
