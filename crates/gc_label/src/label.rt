//! Labels, and the offset between the two labels of a wire.

ghost use Rattle.std.specs.Prelude.{◌≡◌, ◌<◌, ◌^◌, IsTrue, true, false, MatchOption, bit_or};
ghost use Rattle.gc_label.specs.Label.{◌⊕◌, colour, times, label_of_bytes, bytes_of_label, low_half, high_half, label_of_halves};

use std::fmt;
use std::marker::Model;
use std::simd::{u8x16, u64x2};

// The place of the colour, the lowest bit of byte 0, in the number of a label.
const COLOUR_BIT: u32 = 120;

// The number of values of 64 bits.
const HALF: u128 = 1 << 64;

/// One of the two labels of a wire: 16 bytes, which are ordered as bytes are.
#[derive(Clone, Copy, PartialEq, Eq, PartialOrd, Ord, Debug)]
pub struct Label {
    // The bytes read as a number, the first of them highest.
    number: u128,
}

impl Model for Label {
    ghost use Rattle.std.specs.Prelude.{ℕ};

    ghost Value = { ℕ };

    ghost view = { λ l. l.number };

    ghost inverse = { λ n. record { number = n } };
}

impl Label {
    /// The label of 16 zero bytes.
    pub const ZERO: Label = Label { number: 0 };

    /// The label whose bytes spell this number, the first byte highest.
    #[inline]
    pub fn from_number(number: u128) -> Label
        ensures { result ≡ number }
    {
        Label { number }
    }

    /// The number that its bytes spell, the first byte highest.
    #[inline]
    pub fn number(self) -> u128
        ensures { result ≡ self }
    {
        self.number
    }

    /// The label of these bytes.
    #[tactic(auto, unfolding(crate::specs::Label::label_of_bytes))]
    #[inline]
    pub fn from_bytes(bytes: [u8; 16]) -> Label
        ensures { result ≡ label_of_bytes bytes }
    {
        Label {
            number: u128::from_be_bytes(bytes),
        }
    }

    /// The bytes of the label in a vector: there the compiler turns them all round at once, and elsewhere one by one.
    #[tactic(auto, unfolding(crate::specs::Label::bytes_of_label))]
    #[inline]
    fn byte_vector(self) -> u8x16
        ensures bytes { result ≡ bytes_of_label self }
        ensures fits { self < 2 ^ 128 }
    {
        let words = u64x2::from_array([(self.number % HALF) as u64, (self.number >> 64) as u64]);
        let lowest_first = words.to_le_bytes();
        lowest_first.swizzle([15, 14, 13, 12, 11, 10, 9, 8, 7, 6, 5, 4, 3, 2, 1, 0])
    }

    /// The bytes of the label.
    #[tactic(auto, unfolding(crate::specs::Label::bytes_of_label))]
    #[inline]
    pub fn to_bytes(self) -> [u8; 16]
        ensures bytes { result ≡ bytes_of_label self }
        ensures fits { self < 2 ^ 128 }
    {
        self.byte_vector().to_array()
    }

    /// The label in two words: its bytes 0 to 7, and its bytes 8 to 15, both little-endian.
    #[tactic(auto, unfolding(crate::specs::Label::bytes_of_label))]
    #[inline]
    pub fn halves(self) -> (u64, u64)
        ensures low { result.0 ≡ low_half self }
        ensures high { result.1 ≡ high_half self }
        ensures fits { self < 2 ^ 128 }
    {
        let [low, high] = u64x2::from_le_bytes(self.byte_vector()).to_array();
        (low, high)
    }

    /// The label of two such words.
    #[inline]
    pub fn from_halves(low: u64, high: u64) -> Label
        ensures { result ≡ label_of_halves low high }
    {
        let l = low.to_le_bytes();
        let h = high.to_le_bytes();
        Label::from_bytes([
            l[0], l[1], l[2], l[3], l[4], l[5], l[6], l[7], h[0], h[1], h[2], h[3], h[4], h[5],
            h[6], h[7],
        ])
    }

    /// The bitwise exclusive or of two labels.
    #[inline]
    pub fn xor(self, other: Label) -> Label
        ensures { result ≡ self ⊕ other }
    {
        Label {
            number: self.number ^ other.number,
        }
    }

    /// The colour: the lowest bit of byte 0.
    #[inline]
    pub fn colour(self) -> bool
        ensures { result ≡ colour self }
    {
        self.number >> COLOUR_BIT & 1 == 1
    }

    /// The label where the bit is 1, and else [`Label::ZERO`].
    #[inline]
    pub fn times(self, bit: bool) -> Label
        ensures { result ≡ times bit self }
    {
        if bit { self } else { Label::ZERO }
    }
}

/// Writes the bytes as 32 hexadecimal digits, in lower case.
impl fmt::Display for Label {
    ghost use Rattle.std.specs.Prelude.{Some};
    ghost use Rattle.hex.specs.Hex.{encode_lower};
    ghost use Rattle.gc_label.specs.Label.{bytes_of_label};

    ghost output = { λ label. Some (encode_lower (bytes_of_label label)) };

    fn fmt<W: fmt::Write>(&self, f: &mut fmt::Formatter<W>) -> fmt::Result {
        let mut digits = [0; 32];
        hex::encode_to_slice(self.to_bytes(), &mut digits).map_err(|_| fmt::Error)?;
        f.write_str(str::from_utf8(&digits).map_err(|_| fmt::Error)?)
    }
}

/// The difference between the two labels of each wire. Its colour is 1, so that the two labels of
/// a wire have different colours.
#[derive(Clone, Copy, PartialEq, Eq, Debug)]
pub struct Offset {
    label: Label,
}

impl Model for Offset {
    ghost use Rattle.std.specs.Prelude.{ℕ, IsTrue};
    ghost use Rattle.gc_label.specs.Label.{colour};

    ghost Value = { ℕ };

    ghost view = { λ o. o.label };

    ghost invariant = { λ o. IsTrue (colour o.label) };

    ghost inverse = { λ n. record { label = n } };
}

impl Offset {
    /// The offset with the bytes of a label, if its colour is 1.
    pub fn new(label: Label) -> Option<Offset>
        ensures { MatchOption result (colour label ≡ false)
            (λ offset. (offset ≡ label) × (colour label ≡ true)) }
    {
        if label.colour() {
            Some(Offset { label })
        } else {
            None
        }
    }

    /// The offset with the bytes of a label, whose colour is set to 1.
    #[tactic(auto, using(crate::proofs::LabelLemmas::colour_bit_or))]
    pub(crate) fn from_label(label: Label) -> Offset
        ensures { result ≡ bit_or label (2 ^ 120) }
    {
        Offset {
            label: Label {
                number: label.number | 1 << COLOUR_BIT,
            },
        }
    }

    /// The offset as a label, to be added to others.
    #[inline]
    pub fn label(self) -> Label
        ensures same { result ≡ self }
        ensures coloured { IsTrue (colour self) }
    {
        self.label
    }
}
