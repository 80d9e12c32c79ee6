//! The operations of SHA-256 on words (FIPS 180-4, 2.2.2 and 3.2), in each lane of a vector at once.

ghost use Rattle.std.specs.Prelude.{◌≡◌, ◌≢◌, ◌<◌, ◌/◌, ◌^◌, ℕ, bit_and, bit_xor, slice_index};
ghost use Rattle.std.specs.Int.{rotate_right, w32};
ghost use Rattle.std.proofs.Common.{mod-lt, pow_pos};
ghost use Rattle.sha2.specs.Sha256.{add32};
ghost use Rattle.gc_lanes.specs.Lanes as lanes_of;

use std::simd::Simd;

/// Words side by side, one in each lane.
pub(crate) trait Words: Copy {
    // How many lanes there are.
    ghost lanes: { ℕ };

    // The word that lane j holds.
    ghost lane: { Self → ℕ → ℕ };

    /// The same word in each lane.
    fn splat(word: u32) -> Self
        ensures { (j : ℕ) → j < lanes → lane result j ≡ word };

    /// The words with another in one lane.
    fn with_word(self, place: usize, word: u32) -> Self
        requires { place < lanes }
        ensures place { lane result place ≡ word }
        ensures others { (j : ℕ) → j ≢ place → lane result j ≡ lane self j };

    /// The sum modulo 2 ^ 32.
    fn add(self, other: Self) -> Self
        ensures { (j : ℕ) → j < lanes → lane result j ≡ add32 (lane self j) (lane other j) };

    /// The bitwise exclusive or.
    fn xor(self, other: Self) -> Self
        ensures { (j : ℕ) → j < lanes → lane result j ≡ bit_xor (lane self j) (lane other j) };

    /// The bitwise and.
    fn and(self, other: Self) -> Self
        ensures { (j : ℕ) → j < lanes → lane result j ≡ bit_and (lane self j) (lane other j) };

    /// SHR: a shift to the right.
    fn shift_right(self, count: u32) -> Self
        requires { count < 32 }
        ensures { (j : ℕ) → j < lanes → lane result j ≡ lane self j / 2 ^ count };

    /// ROTR: a rotation to the right.
    fn rotate_right(self, count: u32) -> Self
        requires above { 0 < count }
        requires below { count < 32 }
        ensures { (j : ℕ) → j < lanes → lane result j ≡ rotate_right w32 (lane self j) count };

    // Each lane holds a word.
    ghost fits: { (v : Self) (j : ℕ) → lane v j < 2 ^ 32 };
}

impl<const N: usize> Words for Simd<u32, N> {
    ghost lanes = { N };

    ghost lane = { lanes_of.lane };

    #[inline(always)]
    fn splat(word: u32) -> Self {
        Simd::splat(word)
    }

    #[inline(always)]
    fn with_word(self, place: usize, word: u32) -> Self {
        let mut words = self.to_array();
        words[place] = word;
        Simd::from_array(words)
    }

    #[inline(always)]
    fn add(self, other: Self) -> Self {
        self + other
    }

    #[inline(always)]
    fn xor(self, other: Self) -> Self {
        self ^ other
    }

    #[inline(always)]
    fn and(self, other: Self) -> Self {
        self & other
    }

    #[tactic(auto, using(std::proofs::lemmas::Simd::shifts_fit_splat))]
    #[inline(always)]
    fn shift_right(self, count: u32) -> Self {
        self >> Simd::splat(count)
    }

    // Two shifts make a rotation.
    #[tactic(auto, using(std::proofs::lemmas::Simd::shifts_fit_splat))]
    #[inline(always)]
    fn rotate_right(self, count: u32) -> Self {
        (self >> Simd::splat(count)) | (self << Simd::splat(32 - count))
    }

    ghost fits = { λ v j. mod-lt (slice_index v j) (pow_pos 32) };
}
