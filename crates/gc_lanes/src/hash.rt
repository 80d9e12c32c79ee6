//! The tweaked hashes of labels.

ghost use Rattle.std.specs.Prelude.{◌≡◌, ◌*◌, ◌^◌, ◌<◌, ℕ, List, slice_index};
ghost use Rattle.std.specs.Int.{to_le_bytes, w64};
ghost use Rattle.std.specs.Mem.{type_size};
ghost use Rattle.sha2.specs.Sha256.{initial_hash_256};
ghost use Rattle.gc_lanes.specs.Hash.{padded_words, tweaked_hash};
ghost use Rattle.gc_lanes.specs.Lanes.{first_words, label_of_low_words, last_words, low_words, words_of_lane};

use crate::block::{initial_state, padded_block, tweak_words};
use crate::compression::{State, Window, compress};
use crate::labels::{labels_of_eight, labels_of_four, words_of_eight, words_of_four};
use crate::words::Words;

/// The tweaked hash of each label: the first 16 bytes of SHA-256 (FIPS 180-4) of the label's 16 bytes followed by the 8
/// bytes of its tweak, the lowest first. Labels and hashes are the numbers that their bytes spell, the first byte
/// highest. It doesn't allocate.
#[inline]
pub fn hash_four(labels: [u128; 4], tweaks: [u64; 4]) -> [u128; 4]
    ensures { (i : ℕ) → i < 4
        → slice_index result i ≡ tweaked_hash (slice_index labels i) (slice_index tweaks i) }
{
    labels_of_four(hash_each(words_of_four(labels), tweak_words(&tweaks)))
}

/// The tweaked hash of each label, as [`hash_four`] gives it.
#[inline]
pub fn hash_eight(labels: [u128; 8], tweaks: [u64; 8]) -> [u128; 8]
    ensures { (i : ℕ) → i < 8
        → slice_index result i ≡ tweaked_hash (slice_index labels i) (slice_index tweaks i) }
{
    labels_of_eight(hash_each(words_of_eight(labels), tweak_words(&tweaks)))
}

// The words of the tweaked hash of each label, one in each lane; those of labels are lowest first. A hash value and a
// window of such words fit in memory.
#[inline(always)]
fn hash_each<W: Words>(label: [W; 4], tweak: [W; 2]) -> [W; 4]
    requires { 24 * type_size W.row < 2 ^ 63 }
    ensures { (j l t : ℕ) → j < W.lanes → words_of_lane W.lane j label ≡ low_words l
        → words_of_lane W.lane j tweak ≡ first_words (to_le_bytes w64 t)
        → label_of_low_words (words_of_lane W.lane j result) ≡ tweaked_hash l t }
{
    let [a, b, c, d, ..] = compress(
        || -> (State<W>, Window<W>)
            ensures state { (j : ℕ) → j < W.lanes
                → words_of_lane W.lane j result.0 ≡ initial_hash_256 }
            ensures window { (j : ℕ) (l t : List ℕ) → j < W.lanes
                → words_of_lane W.lane j label ≡ last_words l
                → words_of_lane W.lane j tweak ≡ first_words t
                → words_of_lane W.lane j result.1 ≡ padded_words l t }
        { (initial_state(), padded_block(label, tweak)) },
    );
    [d, c, b, a]
}
