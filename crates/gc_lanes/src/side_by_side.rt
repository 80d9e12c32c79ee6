//! The compression of SHA-256 (FIPS 180-4, 6.2.2) of eight messages side by side, a message in each lane.

ghost use Rattle.std.specs.Prelude.{◌≡◌, ◌+◌, ◌*◌, ◌<◌, ◌≤◌, ◌/◌, ◌%◌, ◌^◌, [], ℕ, List, get_or, length, map};
ghost use Rattle.std.specs.Mem.{type_size};
ghost use Rattle.sha2.specs.Sha256.{IsWindow, compress, schedule, word_at};
ghost use Rattle.gc_lanes.specs.Lanes.{lane, words_of_lane};
ghost use Rattle.gc_lanes.specs.SideBySide.{AreHashed, AreLonger, AreWindows};

use crate::block::{initial_state, word_of};
use crate::compression::{State, Window, compress};
use crate::words::Words;
use std::simd::{Simd, u32x8};

/// The word of each message that begins at a byte.
#[inline(always)]
fn words_at(messages: &[&[u8]; 8], start: usize) -> [u32; 8]
    requires { AreLonger (map (λ message. message.now) messages.now) (start + 4) }
    ensures { (j : ℕ) → j < 8 → lane result j
        ≡ word_at (get_or (map (λ message. message.now) messages.now) j []) start }
{
    [
        word_of(messages[0], start),
        word_of(messages[1], start),
        word_of(messages[2], start),
        word_of(messages[3], start),
        word_of(messages[4], start),
        word_of(messages[5], start),
        word_of(messages[6], start),
        word_of(messages[7], start),
    ]
}

/// Fills the window with the words of a block of each message (5.2.1).
#[inline(always)]
fn fill_window(window: &mut Window<u32x8>, messages: &[&[u8]; 8], block: usize)
    requires all { AreLonger (map (λ message. message.now) messages.now) (64 * block + 64) }
    requires fits { 64 * block + 64 < 2 ^ 64 }
    ensures { AreWindows window.new (map (λ message. message.now) messages.now) block }
{
    'words: for t in 0..16 {
        let row = words_at(messages, 64 * block + 4 * t);
        window[t] = Simd::from_array(row);
    }
}

/// The next hash value of each lane, whose block's words the window holds.
fn compress_lanes<W: Words>(state: &State<W>, window: &Window<W>) -> State<W>
    requires { 24 * type_size W.row < 2 ^ 63 }
    ensures { (j : ℕ) (b : List ℕ) → j < W.lanes
        → IsWindow (words_of_lane W.lane j window.now) (schedule b 48) 16
        → words_of_lane W.lane j result ≡ compress (words_of_lane W.lane j state.now) b }
{
    compress(
        || -> (State<W>, Window<W>)
            ensures { result ≡ (state.entry.now, window.entry.now) }
        { (*state, *window) },
    )
}

/// The hash value of each message after its first `bytes` bytes, which are whole blocks.
#[tactic(auto, using(crate::proofs::Chains::hash_after_none, crate::proofs::Chains::hash_after_more))]
pub(crate) fn hash_lanes(messages: &[&[u8]; 8], bytes: usize) -> State<u32x8>
    requires blocks { bytes % 64 ≡ 0 }
    requires all { AreLonger (map (λ message. message.now) messages.now) bytes }
    ensures { AreHashed result (map (λ message. message.now) messages.now) (bytes / 64) }
{
    let mut state = initial_state();
    let mut window = [Simd::splat(0); 16];
    'chain: for block in 0..bytes / 64 {
        fill_window(&mut window, messages, block);
        state = compress_lanes(&state, &window);
    }
    state
}

/// The word in one lane.
#[inline(always)]
fn word_of_lane(words: u32x8, place: usize) -> u32
    requires { place < 8 }
    ensures { result ≡ lane words place }
{
    words.to_array()[place]
}

/// The hash value in one lane.
pub(crate) fn hash_of_lane(state: &State<u32x8>, place: usize) -> [u32; 8]
    requires { place < 8 }
    ensures { result ≡ words_of_lane lane place state.now }
{
    [
        word_of_lane(state[0], place),
        word_of_lane(state[1], place),
        word_of_lane(state[2], place),
        word_of_lane(state[3], place),
        word_of_lane(state[4], place),
        word_of_lane(state[5], place),
        word_of_lane(state[6], place),
        word_of_lane(state[7], place),
    ]
}
