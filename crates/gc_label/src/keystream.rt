//! The offset and the input labels, read from the keystream of a seed.

ghost use Rattle.std.specs.Prelude.{◌≡◌, ◌+◌, ◌*◌, ◌^◌, ◌<◌, ◌≤◌, length, map};
ghost use Rattle.std.specs.List.{range_with_len};
ghost use Rattle.rand_chacha.specs.ChaCha.{word_at, key_of};
ghost use Rattle.gc_label.specs.Seed as seed;
ghost use Rattle.gc_label.specs.Seed.{offset_of, input_label_of};

use crate::label::{Label, Offset};
use crate::seed::Seed;
use rand_chacha::ChaCha20Rng;
use rand_core::SeedableRng;
use rand_core::utils::NextWord;

/// The offset of a garbling: words 0 to 3 of the seed's keystream, with the colour set to 1.
#[tactic(auto, unfolding(crate::specs::Seed::offset_of, crate::specs::Seed::label_at, crate::specs::Seed::word))]
pub fn offset(seed: &Seed) -> Offset
    ensures { result ≡ offset_of seed.now }
{
    Offset::from_label(next_label(&mut keystream_at(seed, 0)))
}

/// The zero label of an input wire: words `4 * (wire + 1)` to `4 * (wire + 1) + 3` of the seed's
/// keystream. For the labels of many wires [`fill_input_labels`] is faster.
#[tactic(auto, unfolding(crate::specs::Seed::input_label_of, crate::specs::Seed::label_at, crate::specs::Seed::word))]
pub fn input_label(seed: &Seed, wire: u32) -> Label
    ensures { result ≡ input_label_of seed.now wire }
{
    next_label(&mut keystream_at(seed, input_place(wire)))
}

/// Fills `labels` with the zero labels of the input wires from `first_wire` on, in one pass over
/// the keystream. All of these wires have numbers below 2^32.
pub fn fill_input_labels(seed: &Seed, first_wire: u32, labels: &mut [Label])
    requires { first_wire + length labels.old ≤ 2 ^ 32 }
    ensures { labels.new
        ≡ map (input_label_of seed.now) (range_with_len first_wire (length labels.old)) }
{
    let mut keystream = keystream_at(seed, input_place(first_wire));
    for label in labels.iter_mut() {
        *label = next_label(&mut keystream);
    }
}

// The place of an input wire's first word: the four words of the offset come first.
fn input_place(wire: u32) -> u64
    ensures { result ≡ 4 * (wire + 1) }
{
    4 * (u64::from(wire) + 1)
}

// The keystream of a seed, from a word on.
fn keystream_at(seed: &Seed, place: u64) -> ChaCha20Rng
    ensures { result ≡ record { key = key_of seed.now; stream = 0; word_pos = place } }
{
    let mut keystream = ChaCha20Rng::from_seed(seed.to_bytes());
    keystream.set_word_pos(u128::from(place));
    keystream
}

// The label of the next four words.
fn next_label(keystream: &mut ChaCha20Rng) -> Label
    requires { keystream.old.word_pos + 4 < 2 ^ 68 }
    ensures label { let word = word_at 10 keystream.old.key keystream.old.stream in
        let p = keystream.old.word_pos in
        result ≡ seed.label_of_words (word p) (word (p + 1)) (word (p + 2)) (word (p + 3)) }
    ensures advanced { keystream.new
        ≡ record keystream.old { word_pos = keystream.old.word_pos + 4 } }
{
    let a = keystream.next_word();
    let b = keystream.next_word();
    let c = keystream.next_word();
    let d = keystream.next_word();
    label_of_words(a, b, c, d)
}

// The label of four words, each written as four bytes, the lowest first.
#[tactic(auto, unfolding(crate::specs::Seed::label_of_words))]
fn label_of_words(a: u32, b: u32, c: u32, d: u32) -> Label
    ensures { result ≡ seed.label_of_words a b c d }
{
    let a = a.to_le_bytes();
    let b = b.to_le_bytes();
    let c = c.to_le_bytes();
    let d = d.to_le_bytes();
    Label::from_bytes([
        a[0], a[1], a[2], a[3], b[0], b[1], b[2], b[3], c[0], c[1], c[2], c[3], d[0], d[1], d[2],
        d[3],
    ])
}
