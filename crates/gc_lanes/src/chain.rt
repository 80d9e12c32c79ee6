//! The compression of SHA-256 (FIPS 180-4, 6.2.2) of consecutive blocks of a message.
//!
//! A message schedule depends on its block alone, so the schedules of eight blocks are computed at once, one in each
//! lane. The rounds of a block start from the hash value of the block before, so they run one block after another.

ghost use Rattle.std.specs.Prelude.{◌≡◌, ◌+◌, ◌*◌, ◌<◌, ◌≤◌, ◌/◌, ◌%◌, [], ℕ, List, get_or, length, slice_index};
ghost use Rattle.sha2.specs.Sha256.{add32, compress, hash_after, round_constants, rounds, schedule};
ghost use Rattle.gc_lanes.specs.Chain.{AreSchedules, block_at, scheduled};
ghost use Rattle.gc_lanes.specs.Lanes.{lane};

use crate::block::word_of;
use crate::constants::ROUND_CONSTANTS;
use crate::functions::{small_sigma_0, small_sigma_1};
use crate::scalar::{add_state, round};
use crate::words::Words;
use std::simd::{Simd, u32x8};

/// In row t the sum of K t and W t of each block.
pub(crate) type Schedules = [[u32; 8]; 64];

/// W t of each block's schedule, for t below 16, which is the block's own (step 1).
#[inline(always)]
fn row_of_blocks(blocks: &[u8], t: usize) -> [u32; 8]
    requires bytes { length blocks.now ≡ 512 }
    requires first { t < 16 }
    ensures { (j : ℕ) → j < 8 → lane result j ≡ scheduled blocks.now j t }
{
    let start = 4 * t;
    [
        word_of(blocks, start),
        word_of(blocks, start + 64),
        word_of(blocks, start + 128),
        word_of(blocks, start + 192),
        word_of(blocks, start + 256),
        word_of(blocks, start + 320),
        word_of(blocks, start + 384),
        word_of(blocks, start + 448),
    ]
}

/// W t of the message schedules, from the words before it (step 1).
#[inline(always)]
fn next_words(words: &[u32x8; 64], t: usize) -> u32x8
    requires after { 16 ≤ t }
    requires before { t < 64 }
    ensures { (j : ℕ) (p : List ℕ) → j < 8
        → ((k : ℕ) → k < t → lane (get_or words.now k []) j ≡ scheduled p j k)
        → lane result j ≡ scheduled p j t }
{
    let later = small_sigma_1(words[t - 2]).add(words[t - 7]);
    later.add(small_sigma_0(words[t - 15])).add(words[t - 16])
}

/// Words W t, with K t added.
#[inline(always)]
fn keyed(word: u32x8, t: usize) -> [u32; 8]
    requires { t < 64 }
    ensures { (j : ℕ) → j < 8
        → lane result j ≡ add32 (slice_index round_constants t) (lane word j) }
{
    let constant: u32x8 = Words::splat(ROUND_CONSTANTS[t]);
    constant.add(word).to_array()
}

/// The message schedules of eight blocks, with the round constants added. What `words` and `rows` hold before does
/// not matter: they are lent so that they are filled with zeros once for a whole message.
#[inline(always)]
fn schedules(words: &mut [u32x8; 64], rows: &mut Schedules, blocks: &[u8])
    requires { length blocks.now ≡ 512 }
    ensures { AreSchedules rows.new blocks.now }
{
    'first: for t in 0..16 {
        let row = row_of_blocks(blocks, t);
        let word: u32x8 = Simd::from_array(row);
        words[t] = word;
        let row = keyed(word, t);
        rows[t] = row;
    }
    'next: for t in 16..64 {
        let word = next_words(words, t);
        words[t] = word;
        let row = keyed(word, t);
        rows[t] = row;
    }
}

/// Round t of one block.
#[tactic(auto, using(crate::proofs::Chains::rounds_more))]
#[inline(always)]
fn round_of(rows: &Schedules, block: usize, variables: [u32; 8], t: usize) -> [u32; 8]
    requires block { block < 8 }
    requires round { t < 64 }
    ensures { (p h : List ℕ) → AreSchedules rows.now p
        → variables ≡ rounds h (schedule (block_at p block) 48) t
        → result ≡ rounds h (schedule (block_at p block) 48) (t + 1) }
{
    round(variables, rows[t][block])
}

/// Four rounds of one block, from round t on.
#[inline(always)]
fn four_rounds_of(rows: &Schedules, block: usize, variables: [u32; 8], t: usize) -> [u32; 8]
    requires block { block < 8 }
    requires round { t + 4 ≤ 64 }
    ensures { (p h : List ℕ) → AreSchedules rows.now p
        → variables ≡ rounds h (schedule (block_at p block) 48) t
        → result ≡ rounds h (schedule (block_at p block) 48) (t + 4) }
{
    let variables = round_of(rows, block, variables, t);
    let variables = round_of(rows, block, variables, t + 1);
    let variables = round_of(rows, block, variables, t + 2);
    round_of(rows, block, variables, t + 3)
}

/// Compresses one of the blocks.
#[tactic(auto, using(crate::proofs::Chains::rounds_none), unfolding(sha2::specs::Sha256::compress))]
fn compress_one(rows: &Schedules, block: usize, hash: &mut [u32; 8])
    requires { block < 8 }
    ensures { (p : List ℕ) → AreSchedules rows.now p
        → hash.new ≡ compress hash.old (block_at p block) }
{
    let variables = four_rounds_of(rows, block, *hash, 0);
    let variables = four_rounds_of(rows, block, variables, 4);
    let variables = four_rounds_of(rows, block, variables, 8);
    let variables = four_rounds_of(rows, block, variables, 12);
    let variables = four_rounds_of(rows, block, variables, 16);
    let variables = four_rounds_of(rows, block, variables, 20);
    let variables = four_rounds_of(rows, block, variables, 24);
    let variables = four_rounds_of(rows, block, variables, 28);
    let variables = four_rounds_of(rows, block, variables, 32);
    let variables = four_rounds_of(rows, block, variables, 36);
    let variables = four_rounds_of(rows, block, variables, 40);
    let variables = four_rounds_of(rows, block, variables, 44);
    let variables = four_rounds_of(rows, block, variables, 48);
    let variables = four_rounds_of(rows, block, variables, 52);
    let variables = four_rounds_of(rows, block, variables, 56);
    let variables = four_rounds_of(rows, block, variables, 60);
    *hash = add_state(*hash, variables);
}

/// Compresses the first `count` of eight blocks, given their schedules.
#[tactic(auto, using(crate::proofs::Chains::hash_after_none, crate::proofs::Chains::hash_after_more))]
#[inline(always)]
fn compress_each(rows: &Schedules, hash: &mut [u32; 8], count: usize)
    requires { count ≤ 8 }
    ensures { (p : List ℕ) → AreSchedules rows.now p → hash.new ≡ hash_after hash.old p count }
{
    'chain: for block in 0..count {
        compress_one(rows, block, hash);
    }
}

/// Compresses the first `count` of eight blocks.
pub(crate) fn compress_blocks(hash: &mut [u32; 8], blocks: &[u8], count: usize)
    requires bytes { length blocks.now ≡ 512 }
    requires count { count ≤ 8 }
    ensures { hash.new ≡ hash_after hash.old blocks.now count }
{
    let mut words: [u32x8; 64] = [Simd::splat(0); 64];
    let mut rows = [[0; 8]; 64];
    schedules(&mut words, &mut rows, blocks);
    compress_each(&rows, hash, count);
}

/// Compresses all of the blocks, whose number is a multiple of eight.
#[tactic(auto, using(crate::proofs::Chains::hash_after_none))]
pub(crate) fn compress_eights(hash: &mut [u32; 8], blocks: &[u8])
    requires { length blocks.now % 512 ≡ 0 }
    ensures { hash.new ≡ hash_after hash.old blocks.now (length blocks.now / 64) }
{
    let mut words: [u32x8; 64] = [Simd::splat(0); 64];
    let mut rows = [[0; 8]; 64];
    'parts: for part in 0..blocks.len() / 512 {
        let start = 512 * part;
        schedules(&mut words, &mut rows, &blocks[start..start + 512]);
        compress_each(&rows, hash, 8);
    }
}
