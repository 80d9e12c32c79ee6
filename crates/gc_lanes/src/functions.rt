//! The functions of SHA-256 (FIPS 180-4, 4.1.2), in each lane at once.

ghost use Rattle.std.specs.Prelude.{◌≡◌, ◌<◌, ℕ};
ghost use Rattle.sha2.specs.Sha256.{big_sigma0, big_sigma1, ch, maj, small_sigma0, small_sigma1};

use crate::words::Words;

/// Ch: the bit of `y` where that of `x` is 1, else that of `z`.
#[tactic(auto, using(crate::proofs::Bits::ch_three))]
#[inline(always)]
pub(crate) fn ch<W: Words>(x: W, y: W, z: W) -> W
    ensures { (j : ℕ) → j < W.lanes → W.lane result j ≡ ch (W.lane x j) (W.lane y j) (W.lane z j) }
{
    z.xor(x.and(y.xor(z)))
}

/// Maj: the bit that at least two of the three have. The next round reads `x` and `y` as its `y` and `z`, so
/// the compiler computes their exclusive or once.
#[tactic(auto, using(crate::proofs::Bits::maj_three))]
#[inline(always)]
pub(crate) fn maj<W: Words>(x: W, y: W, z: W) -> W
    ensures { (j : ℕ) → j < W.lanes → W.lane result j ≡ maj (W.lane x j) (W.lane y j) (W.lane z j) }
{
    y.xor(x.xor(y).and(y.xor(z)))
}

/// Σ 0: rotations by 2, 13 and 22.
#[inline(always)]
pub(crate) fn big_sigma_0<W: Words>(x: W) -> W
    ensures { (j : ℕ) → j < W.lanes → W.lane result j ≡ big_sigma0 (W.lane x j) }
{
    x.rotate_right(2)
        .xor(x.rotate_right(13))
        .xor(x.rotate_right(22))
}

/// Σ 1: rotations by 6, 11 and 25.
#[inline(always)]
pub(crate) fn big_sigma_1<W: Words>(x: W) -> W
    ensures { (j : ℕ) → j < W.lanes → W.lane result j ≡ big_sigma1 (W.lane x j) }
{
    x.rotate_right(6)
        .xor(x.rotate_right(11))
        .xor(x.rotate_right(25))
}

/// σ 0: rotations by 7 and 18, and a shift by 3.
#[inline(always)]
pub(crate) fn small_sigma_0<W: Words>(x: W) -> W
    ensures { (j : ℕ) → j < W.lanes → W.lane result j ≡ small_sigma0 (W.lane x j) }
{
    x.rotate_right(7)
        .xor(x.rotate_right(18))
        .xor(x.shift_right(3))
}

/// σ 1: rotations by 17 and 19, and a shift by 10.
#[inline(always)]
pub(crate) fn small_sigma_1<W: Words>(x: W) -> W
    ensures { (j : ℕ) → j < W.lanes → W.lane result j ≡ small_sigma1 (W.lane x j) }
{
    x.rotate_right(17)
        .xor(x.rotate_right(19))
        .xor(x.shift_right(10))
}
