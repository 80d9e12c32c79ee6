//! Messages of one block each, a label and a tweak, one in each lane.

ghost use Rattle.std.specs.Prelude.{◌≡◌, ◌+◌, ◌<◌, ◌≤◌, ℕ, List, length, slice_index};
ghost use Rattle.std.specs.Int.{to_le_bytes, w64};
ghost use Rattle.sha2.specs.Sha256.{initial_hash_256, word_at};
ghost use Rattle.gc_lanes.specs.Hash.{padded_words};
ghost use Rattle.gc_lanes.specs.Lanes.{first_words, last_words, words_of_lane};

use crate::compression::{State, Window};
use crate::constants::INITIAL_HASH;
use crate::words::Words;

// Padding begins with a bit 1, and ends with the message's length in bits (FIPS 180-4, 5.1.1).
const FIRST_PADDING: u32 = 0x8000_0000;

const MESSAGE_BITS: u32 = 192;

/// The initial hash value in each lane (FIPS 180-4, 5.3.3).
#[inline(always)]
pub(crate) fn initial_state<W: Words>() -> State<W>
    ensures { (j : ℕ) → j < W.lanes → words_of_lane W.lane j result ≡ initial_hash_256 }
{
    [
        W::splat(INITIAL_HASH[0]),
        W::splat(INITIAL_HASH[1]),
        W::splat(INITIAL_HASH[2]),
        W::splat(INITIAL_HASH[3]),
        W::splat(INITIAL_HASH[4]),
        W::splat(INITIAL_HASH[5]),
        W::splat(INITIAL_HASH[6]),
        W::splat(INITIAL_HASH[7]),
    ]
}

// The word that begins at a byte, this byte highest (FIPS 180-4, 5.2.1).
#[inline(always)]
pub(crate) fn word_of(bytes: &[u8], start: usize) -> u32
    requires { start + 4 ≤ length bytes.now }
    ensures { result ≡ word_at bytes.now start }
{
    u32::from_be_bytes([
        bytes[start],
        bytes[start + 1],
        bytes[start + 2],
        bytes[start + 3],
    ])
}

// The word at this byte of each tweak, whose 8 bytes are lowest first.
#[inline(always)]
fn tweak_word<W: Words, const N: usize>(tweaks: &[u64; N], start: usize) -> W
    requires lanes { N ≡ W.lanes }
    requires start { start + 4 ≤ 8 }
    ensures { (j : ℕ) → j < N →
        W.lane result j ≡ word_at (to_le_bytes w64 (slice_index tweaks.now j)) start }
{
    let mut words = W::splat(0);
    for j in 0..N {
        words = words.with_word(j, word_of(&tweaks[j].to_le_bytes(), start));
    }
    words
}

/// The two words of each tweak, whose 8 bytes are lowest first.
#[inline(always)]
pub(crate) fn tweak_words<W: Words, const N: usize>(tweaks: &[u64; N]) -> [W; 2]
    requires { N ≡ W.lanes }
    ensures { (j : ℕ) → j < N → words_of_lane W.lane j result
        ≡ first_words (to_le_bytes w64 (slice_index tweaks.now j)) }
{
    [tweak_word(tweaks, 0), tweak_word(tweaks, 4)]
}

/// The words of each message's one block: its label, whose words are given lowest first, its tweak, and the padding
/// (FIPS 180-4, 5.1.1 and 5.2.1).
#[inline(always)]
pub(crate) fn padded_block<W: Words>(label: [W; 4], tweak: [W; 2]) -> Window<W>
    ensures { (j : ℕ) (l t : List ℕ) → j < W.lanes → words_of_lane W.lane j label ≡ last_words l
        → words_of_lane W.lane j tweak ≡ first_words t
        → words_of_lane W.lane j result ≡ padded_words l t }
{
    let zero = W::splat(0);
    let [d, c, b, a] = label;
    let [first, second] = tweak;
    [
        a,
        b,
        c,
        d,
        first,
        second,
        W::splat(FIRST_PADDING),
        zero,
        zero,
        zero,
        zero,
        zero,
        zero,
        zero,
        zero,
        W::splat(MESSAGE_BITS),
    ]
}
