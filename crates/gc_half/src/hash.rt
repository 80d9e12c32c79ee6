//! The hash that garbling and evaluation share.

ghost use Rattle.std.specs.Prelude.{◌≡◌, ◌+◌, ◌^◌, ◌<◌, ◌≤◌, ℕ, map, slice_index};
ghost use Rattle.gc_half.specs.Hash as hashes;

use gc_label::Label;
use gc_lanes::{hash_eight, hash_four};
use sha2::{Digest, Sha256};

/// The hash of a label under a tweak: the first 16 bytes of SHA-256 (FIPS 180-4) of the label's 16 bytes
/// followed by the tweak's 8, the lowest first.
#[tactic(auto, unfolding(crate::specs::Hash::hash))]
pub fn tweak_hash(label: Label, tweak: u64) -> Label
    ensures { result ≡ hashes.hash label tweak }
{
    let mut hasher = Sha256::new();
    hasher.update(&label.to_bytes());
    hasher.update(&tweak_bytes(tweak));
    let digest = hasher.finalize();
    let mut front = [0; 16];
    front.copy_from_slice(&digest[..16]);
    Label::from_bytes(front)
}

/// Four such hashes at once, each of a label and its tweak.
#[inline]
pub(crate) fn tweak_hash_four(inputs: [(Label, u64); 4]) -> [Label; 4]
    ensures { result ≡ map (λ input. hashes.hash input.0 input.1) inputs }
{
    let [a, b, c, d] = inputs;
    let labels = [a.0.number(), b.0.number(), c.0.number(), d.0.number()];
    let [a, b, c, d] = hash_four(labels, [a.1, b.1, c.1, d.1]);
    [
        Label::from_number(a),
        Label::from_number(b),
        Label::from_number(c),
        Label::from_number(d),
    ]
}

/// Eight such hashes at once: four, and four others.
#[inline]
pub(crate) fn tweak_hash_eight(
    inputs: [(Label, u64); 4],
    others: [(Label, u64); 4],
) -> ([Label; 4], [Label; 4])
    ensures inputs { result.0 ≡ map (λ input. hashes.hash input.0 input.1) inputs }
    ensures others { result.1 ≡ map (λ input. hashes.hash input.0 input.1) others }
{
    let [a, b, c, d] = inputs;
    let [e, f, g, h] = others;
    let labels = [
        a.0.number(),
        b.0.number(),
        c.0.number(),
        d.0.number(),
        e.0.number(),
        f.0.number(),
        g.0.number(),
        h.0.number(),
    ];
    let [a, b, c, d, e, f, g, h] = hash_eight(labels, [a.1, b.1, c.1, d.1, e.1, f.1, g.1, h.1]);
    (
        [
            Label::from_number(a),
            Label::from_number(b),
            Label::from_number(c),
            Label::from_number(d),
        ],
        [
            Label::from_number(e),
            Label::from_number(f),
            Label::from_number(g),
            Label::from_number(h),
        ],
    )
}

/// The hashes of eight labels, as [`tweak_hash`] gives each, under tweaks that follow one another from `first` on. They
/// are computed at once. The caller ensures that the last tweak is below 2^64.
pub fn tweak_hash_series(labels: [Label; 8], first: u64) -> [Label; 8]
    requires { first + 8 ≤ 2 ^ 64 }
    ensures { (j : ℕ) → j < 8
        → slice_index result j ≡ hashes.hash (slice_index labels j) (first + j) }
{
    let [a, b, c, d, e, f, g, h] = labels;
    let (four, others) = tweak_hash_eight(
        [(a, first), (b, first + 1), (c, first + 2), (d, first + 3)],
        [
            (e, first + 4),
            (f, first + 5),
            (g, first + 6),
            (h, first + 7),
        ],
    );
    let [a, b, c, d] = four;
    let [e, f, g, h] = others;
    [a, b, c, d, e, f, g, h]
}

/// A tweak as 8 bytes, the lowest first.
#[tactic(auto, unfolding(crate::specs::Hash::tweak_bytes))]
#[inline]
fn tweak_bytes(tweak: u64) -> [u8; 8]
    ensures { result ≡ hashes.tweak_bytes tweak }
{
    tweak.to_le_bytes()
}
