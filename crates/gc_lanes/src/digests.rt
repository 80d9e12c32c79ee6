//! SHA-256 (FIPS 180-4) of several messages.

ghost use Rattle.std.specs.Prelude.{◌≡◌, ◌<◌, ◌≤◌, ◌/◌, ◌%◌, [], ℕ, get_or, length, map, take};
ghost use Rattle.sha2.specs.Sha256.{hash_after, initial_hash_256, sha256};

use crate::hasher::{BUFFER, LongSha256};
use crate::side_by_side::{hash_lanes, hash_of_lane};
use sha2::Digest;

/// How many messages are digested side by side.
pub const SIDE_BY_SIDE: usize = 8;

// Eight lanes take less time than three messages one after another, and more than two.
const FEWEST: usize = 3;

/// How many bytes of each message are hashed side by side: the whole buffers of the shortest message, and none where
/// the messages are fewer than [`FEWEST`].
fn bytes_side_by_side(messages: &[&[u8]]) -> usize
    ensures buffers { result % 4096 ≡ 0 }
    ensures all { (j : ℕ) → j < length messages.now
        → result ≤ length (get_or (map (λ message. message.now) messages.now) j []) }
{
    if messages.len() < FEWEST {
        return 0;
    }
    let mut shortest = messages[0].len();
    'lengths: for message in messages {
        shortest = shortest.min(message.len());
    }
    shortest - shortest % BUFFER
}

/// The message of a lane: the one at this place, or the first where there is none.
fn message_of_lane<'a>(messages: &[&'a [u8]], place: usize) -> &'a [u8]
    requires { 0 < length messages.now }
    ensures here { place < length messages.now
        → result.now ≡ get_or (map (λ message. message.now) messages.now) place [] }
    ensures first { length messages.now ≤ place
        → result.now ≡ get_or (map (λ message. message.now) messages.now) 0 [] }
{
    if place < messages.len() {
        messages[place]
    } else {
        messages[0]
    }
}

/// The digest of a message, given the hash value after its first `start` bytes, which are whole buffers.
fn digest_rest(hash: [u32; 8], message: &[u8], start: usize) -> [u8; 32]
    requires buffers { start % 4096 ≡ 0 }
    requires within { start ≤ length message.now }
    requires hash { hash ≡ hash_after initial_hash_256 message.now (start / 64) }
    ensures { result ≡ sha256 message.now }
{
    let mut hasher = LongSha256 {
        hash,
        buffer: [0; BUFFER],
        total: start as u64,
    };
    hasher.update(&message[start..]);
    hasher.finalize()
}

/// The message of each lane.
fn messages_of_lanes<'a>(messages: &[&'a [u8]]) -> [&'a [u8]; SIDE_BY_SIDE]
    requires { 0 < length messages.now }
    ensures here { (j : ℕ) → j < length messages.now → j < 8
        → get_or (map (λ message. message.now) result) j []
        ≡ get_or (map (λ message. message.now) messages.now) j [] }
    ensures first { (j : ℕ) → length messages.now ≤ j → j < 8
        → get_or (map (λ message. message.now) result) j []
        ≡ get_or (map (λ message. message.now) messages.now) 0 [] }
{
    [
        message_of_lane(messages, 0),
        message_of_lane(messages, 1),
        message_of_lane(messages, 2),
        message_of_lane(messages, 3),
        message_of_lane(messages, 4),
        message_of_lane(messages, 5),
        message_of_lane(messages, 6),
        message_of_lane(messages, 7),
    ]
}

/// SHA-256 (FIPS 180-4) of each of at most [`SIDE_BY_SIDE`] messages, and then unspecified bytes. Three messages or
/// more go side by side as far as the shortest goes, and from there one after another. It doesn't allocate.
pub fn digest_eight(messages: &[&[u8]]) -> [[u8; 32]; SIDE_BY_SIDE]
    requires { length messages.now ≤ SIDE_BY_SIDE }
    ensures { take (length messages.now) result ≡ map (λ message. sha256 message.now) messages.now }
{
    let mut digests = [[0; 32]; SIDE_BY_SIDE];
    if messages.is_empty() {
        return digests;
    }
    let bytes = bytes_side_by_side(messages);
    let state = hash_lanes(&messages_of_lanes(messages), bytes);
    'messages: for i in 0..messages.len() {
        let hash = hash_of_lane(&state, i);
        let digest = digest_rest(hash, messages[i], bytes);
        digests[i] = digest;
    }
    digests
}
