//! SHA-256 (FIPS 180-4) with the words of four or eight blocks side by side in vectors.
//!
//! A label of 16 bytes and a tweak of 8 are a message of one block, so that each hash is one compression.
//! [`hash_four`] and [`hash_eight`] compress such blocks side by side. [`digest_eight`] digests up to eight messages, a
//! block of each side by side. [`LongSha256`] digests one long message: it computes the message schedules of eight
//! blocks side by side. Nothing here allocates.
#![tactic(auto)]

mod block;
mod chain;
mod compression;
mod constants;
mod digests;
mod functions;
mod hash;
mod hasher;
mod labels;
mod scalar;
mod side_by_side;
mod words;

pub use digests::{SIDE_BY_SIDE, digest_eight};
pub use hash::{hash_eight, hash_four};
pub use hasher::LongSha256;
