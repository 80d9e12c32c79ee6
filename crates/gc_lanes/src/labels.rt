//! Labels by their words, one label in each lane. A label is 16 bytes, seen as the number that they spell, the first
//! byte highest; its words are lowest first here.

ghost use Rattle.std.specs.Prelude.{◌≡◌, ◌<◌, ◌++◌, ◌∷◌, [], ℕ, slice_index};
ghost use Rattle.gc_lanes.specs.Lanes.{column, label_of_low_words, lane, low_words, words_of_lane};

use std::simd::{u32x4, u32x8, u64x2};

// The number of values of 64 bits.
const HALF: u128 = 1 << 64;

/// The words of a label. It goes by halves, since the compiler makes one move of them.
#[inline(always)]
fn words_of(label: u128) -> u32x4
    ensures { result ≡ low_words label }
{
    let halves = u64x2::from_array([(label % HALF) as u64, (label >> 64) as u64]);
    u32x4::from_le_bytes(halves.to_le_bytes())
}

/// The label of four words.
#[inline(always)]
fn label_of(words: u32x4) -> u128
    ensures { result
        ≡ label_of_low_words (lane words 0 ∷ lane words 1 ∷ lane words 2 ∷ lane words 3 ∷ []) }
{
    u128::from_le_bytes(words.to_le_bytes().to_array())
}

/// Four rows as columns.
#[inline(always)]
fn turned_four(p: u32x4, q: u32x4, r: u32x4, s: u32x4) -> [u32x4; 4]
    ensures { result
        ≡ column p q r s 0 ∷ column p q r s 1 ∷ column p q r s 2 ∷ column p q r s 3 ∷ [] }
{
    let a = p.shuffle(q, [0, 4, 1, 5]);
    let b = p.shuffle(q, [2, 6, 3, 7]);
    let c = r.shuffle(s, [0, 4, 1, 5]);
    let d = r.shuffle(s, [2, 6, 3, 7]);
    [
        a.shuffle(c, [0, 1, 4, 5]),
        a.shuffle(c, [2, 3, 6, 7]),
        b.shuffle(d, [0, 1, 4, 5]),
        b.shuffle(d, [2, 3, 6, 7]),
    ]
}

/// Four rows as columns, each of the first four joined with one of the others.
#[inline(always)]
fn turned_eight(p: u32x8, q: u32x8, r: u32x8, s: u32x8) -> [u32x8; 4]
    ensures { result
        ≡ (column p q r s 0 ++ column p q r s 4) ∷ (column p q r s 1 ++ column p q r s 5)
        ∷ (column p q r s 2 ++ column p q r s 6) ∷ (column p q r s 3 ++ column p q r s 7) ∷ [] }
{
    let a = p.shuffle(q, [0, 8, 1, 9, 4, 12, 5, 13]);
    let b = p.shuffle(q, [2, 10, 3, 11, 6, 14, 7, 15]);
    let c = r.shuffle(s, [0, 8, 1, 9, 4, 12, 5, 13]);
    let d = r.shuffle(s, [2, 10, 3, 11, 6, 14, 7, 15]);
    [
        a.shuffle(c, [0, 1, 8, 9, 4, 5, 12, 13]),
        a.shuffle(c, [2, 3, 10, 11, 6, 7, 14, 15]),
        b.shuffle(d, [0, 1, 8, 9, 4, 5, 12, 13]),
        b.shuffle(d, [2, 3, 10, 11, 6, 7, 14, 15]),
    ]
}

/// The words of four labels.
#[inline(always)]
pub(crate) fn words_of_four(labels: [u128; 4]) -> [u32x4; 4]
    ensures { (j : ℕ) → j < 4 → words_of_lane lane j result ≡ low_words (slice_index labels j) }
{
    let [a, b, c, d] = labels;
    turned_four(words_of(a), words_of(b), words_of(c), words_of(d))
}

/// The words of two labels side by side.
#[inline(always)]
fn words_of_two(one: u128, other: u128) -> u32x8
    ensures { result ≡ low_words one ++ low_words other }
{
    words_of(one).shuffle(words_of(other), [0, 1, 2, 3, 4, 5, 6, 7])
}

/// The words of eight labels.
#[inline(always)]
pub(crate) fn words_of_eight(labels: [u128; 8]) -> [u32x8; 4]
    ensures { (j : ℕ) → j < 8 → words_of_lane lane j result ≡ low_words (slice_index labels j) }
{
    let [a, b, c, d, e, f, g, h] = labels;
    turned_eight(
        words_of_two(a, e),
        words_of_two(b, f),
        words_of_two(c, g),
        words_of_two(d, h),
    )
}

/// Four labels by their words.
#[inline(always)]
pub(crate) fn labels_of_four(words: [u32x4; 4]) -> [u128; 4]
    ensures { (j : ℕ) → j < 4
        → slice_index result j ≡ label_of_low_words (words_of_lane lane j words) }
{
    let [p, q, r, s] = words;
    let [a, b, c, d] = turned_four(p, q, r, s);
    [label_of(a), label_of(b), label_of(c), label_of(d)]
}

/// The two labels whose words are side by side.
#[inline(always)]
fn labels_of_two(words: u32x8) -> (u128, u128)
    ensures one { result.0
        ≡ label_of_low_words (lane words 0 ∷ lane words 1 ∷ lane words 2 ∷ lane words 3 ∷ []) }
    ensures other { result.1
        ≡ label_of_low_words (lane words 4 ∷ lane words 5 ∷ lane words 6 ∷ lane words 7 ∷ []) }
{
    (
        label_of(words.swizzle([0, 1, 2, 3])),
        label_of(words.swizzle([4, 5, 6, 7])),
    )
}

/// Eight labels by their words.
#[inline(always)]
pub(crate) fn labels_of_eight(words: [u32x8; 4]) -> [u128; 8]
    ensures { (j : ℕ) → j < 8
        → slice_index result j ≡ label_of_low_words (words_of_lane lane j words) }
{
    let [p, q, r, s] = words;
    let [one, two, three, four] = turned_eight(p, q, r, s);
    let (a, e) = labels_of_two(one);
    let (b, f) = labels_of_two(two);
    let (c, g) = labels_of_two(three);
    let (d, h) = labels_of_two(four);
    [a, b, c, d, e, f, g, h]
}
