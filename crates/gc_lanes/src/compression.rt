//! The compression of SHA-256 (FIPS 180-4, 6.2.2), of a block in each lane at once.
//!
//! After t rounds the window holds the last sixteen words of the message schedule, W t-16 to W t-1, and the
//! state the working variables a to h. Contracts speak of any lane, with `b` its block and `h` the hash value
//! that it began with.

ghost use Rattle.std.specs.Prelude.{◌≡◌, ◌+◌, ◌*◌, ◌^◌, ◌%◌, ◌<◌, ◌≤◌, ℕ, List, slice_set};
ghost use Rattle.std.specs.Mem.{type_size};
ghost use Rattle.sha2.specs.Sha256.{IsRoundsAt, IsWindow, add_state, compress, round, rounds, schedule, window_word};
ghost use Rattle.gc_lanes.specs.Lanes.{words_of_lane};

use crate::constants::ROUND_CONSTANTS;
use crate::functions::{big_sigma_0, big_sigma_1, ch, maj, small_sigma_0, small_sigma_1};
use crate::words::Words;

/// A hash value, or the working variables a to h, in each lane.
pub(crate) type State<W> = [W; 8];

/// Sixteen words of the message schedule in each lane, W t at place t % 16.
pub(crate) type Window<W> = [W; 16];

/// One round with its constant K t and its word W t (step 3).
#[inline(always)]
fn round<W: Words>(variables: State<W>, constant: u32, word: W) -> State<W>
    ensures { (j : ℕ) → j < W.lanes → words_of_lane W.lane j result
        ≡ round (words_of_lane W.lane j variables) constant (W.lane word j) }
{
    let [a, b, c, d, e, f, g, h] = variables;
    let chosen = h.add(big_sigma_1(e)).add(ch(e, f, g));
    let temporary_1 = chosen.add(W::splat(constant)).add(word);
    let temporary_2 = big_sigma_0(a).add(maj(a, b, c));
    [
        temporary_1.add(temporary_2),
        a,
        b,
        c,
        d.add(temporary_1),
        e,
        f,
        g,
    ]
}

/// W t of the message schedule (step 1), which takes the place of W t-16.
#[inline(always)]
fn next_word<W: Words>(window: &mut Window<W>, t: usize) -> W
    requires { t < 64 }
    ensures value { (j : ℕ) → j < W.lanes
        → W.lane result j ≡ window_word (words_of_lane W.lane j window.old) t }
    ensures window { window.new ≡ slice_set window.old (t % 16) result }
{
    let later = small_sigma_1(window[(t + 14) % 16]).add(window[(t + 9) % 16]);
    let word = later
        .add(small_sigma_0(window[(t + 1) % 16]))
        .add(window[t % 16]);
    window[t % 16] = word;
    word
}

/// Round t of the first sixteen, whose words are the block's.
#[inline(always)]
fn round_of_block<W: Words>(window: &Window<W>, variables: State<W>, t: usize) -> State<W>
    requires { t < 16 }
    ensures { (j : ℕ) (b h : List ℕ) → j < W.lanes
        → IsWindow (words_of_lane W.lane j window.now) (schedule b 48) 16
        → words_of_lane W.lane j variables ≡ rounds h (schedule b 48) t
        → words_of_lane W.lane j result ≡ rounds h (schedule b 48) (t + 1) }
{
    round(variables, ROUND_CONSTANTS[t], window[t])
}

/// Four rounds of the first sixteen, from round t on.
#[inline(always)]
fn four_rounds_of_block<W: Words>(window: &Window<W>, variables: State<W>, t: usize) -> State<W>
    requires { t + 4 ≤ 16 }
    ensures { (j : ℕ) (b h : List ℕ) → j < W.lanes
        → IsWindow (words_of_lane W.lane j window.now) (schedule b 48) 16
        → words_of_lane W.lane j variables ≡ rounds h (schedule b 48) t
        → words_of_lane W.lane j result ≡ rounds h (schedule b 48) (t + 4) }
{
    let variables = round_of_block(window, variables, t);
    let variables = round_of_block(window, variables, t + 1);
    let variables = round_of_block(window, variables, t + 2);
    round_of_block(window, variables, t + 3)
}

/// Round t after the first sixteen, with the next word of the message schedule.
#[inline(always)]
fn round_of_schedule<W: Words>(window: &mut Window<W>, variables: State<W>, t: usize) -> State<W>
    requires after { 16 ≤ t }
    requires before { t < 64 }
    ensures { (j : ℕ) (b h : List ℕ) → j < W.lanes
        → IsRoundsAt b h (words_of_lane W.lane j window.old) (words_of_lane W.lane j variables) t
        → IsRoundsAt b h (words_of_lane W.lane j window.new)
        (words_of_lane W.lane j result) (t + 1) }
{
    let word = next_word(window, t);
    round(variables, ROUND_CONSTANTS[t], word)
}

/// Four rounds after the first sixteen, from round t on.
#[inline(always)]
fn four_rounds_of_schedule<W: Words>(
    window: &mut Window<W>,
    variables: State<W>,
    t: usize,
) -> State<W>
    requires after { 16 ≤ t }
    requires before { t + 4 ≤ 64 }
    ensures { (j : ℕ) (b h : List ℕ) → j < W.lanes
        → IsRoundsAt b h (words_of_lane W.lane j window.old) (words_of_lane W.lane j variables) t
        → IsRoundsAt b h (words_of_lane W.lane j window.new)
        (words_of_lane W.lane j result) (t + 4) }
{
    let variables = round_of_schedule(window, variables, t);
    let variables = round_of_schedule(window, variables, t + 1);
    let variables = round_of_schedule(window, variables, t + 2);
    round_of_schedule(window, variables, t + 3)
}

/// The next hash value: the sums of the hash value's words and the working variables (step 4).
#[inline(always)]
fn add_states<W: Words>(state: State<W>, variables: State<W>) -> State<W>
    ensures { (j : ℕ) → j < W.lanes → words_of_lane W.lane j result
        ≡ add_state (words_of_lane W.lane j state) (words_of_lane W.lane j variables) }
{
    [
        state[0].add(variables[0]),
        state[1].add(variables[1]),
        state[2].add(variables[2]),
        state[3].add(variables[3]),
        state[4].add(variables[4]),
        state[5].add(variables[5]),
        state[6].add(variables[6]),
        state[7].add(variables[7]),
    ]
}

/// Compresses a block in each lane. A closure returns the hash value and the block's words.
///
/// `#[inline(always)]` does nothing on a function of this size. But each closure has a compression of its own, in which
/// the compiler folds what it knows of that hash value and of those words. So the 64 rounds are written out, four a
/// call, without a loop.
pub(crate) fn compress<W: Words, F: FnOnce() -> (State<W>, Window<W>)>(begin: F) -> State<W>
    requires callable { F.IsAlwaysCallable begin }
    requires fits { 24 * type_size W.row < 2 ^ 63 }
    ensures { (j : ℕ) (b h : List ℕ) → j < W.lanes
        → ((state window : _) → F.post begin (state, window) → (words_of_lane W.lane j state ≡ h)
        × IsWindow (words_of_lane W.lane j window) (schedule b 48) 16)
        → words_of_lane W.lane j result ≡ compress h b }
{
    let (state, mut window) = begin();
    let variables = four_rounds_of_block(&window, state, 0);
    let variables = four_rounds_of_block(&window, variables, 4);
    let variables = four_rounds_of_block(&window, variables, 8);
    let variables = four_rounds_of_block(&window, variables, 12);
    let variables = four_rounds_of_schedule(&mut window, variables, 16);
    let variables = four_rounds_of_schedule(&mut window, variables, 20);
    let variables = four_rounds_of_schedule(&mut window, variables, 24);
    let variables = four_rounds_of_schedule(&mut window, variables, 28);
    let variables = four_rounds_of_schedule(&mut window, variables, 32);
    let variables = four_rounds_of_schedule(&mut window, variables, 36);
    let variables = four_rounds_of_schedule(&mut window, variables, 40);
    let variables = four_rounds_of_schedule(&mut window, variables, 44);
    let variables = four_rounds_of_schedule(&mut window, variables, 48);
    let variables = four_rounds_of_schedule(&mut window, variables, 52);
    let variables = four_rounds_of_schedule(&mut window, variables, 56);
    let variables = four_rounds_of_schedule(&mut window, variables, 60);
    add_states(state, variables)
}
