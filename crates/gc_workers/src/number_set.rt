//! Sets of numbers, in a bit for each.

ghost use Rattle.std.specs.Prelude.{◌≡◌, ◌+◌, ◌*◌, ◌/◌, ◌<◌, ◌≤◌, ◌↔◌, ℕ, IsTrue, IfOk, MatchOption, length, replicate, slice_index_or};
ghost use Rattle.std.specs.Int.{bit_at};
ghost use Rattle.gc_workers.specs.NumberSet.{Has, Adds, Removes, Unites};

use std::alloc::{AllocError, Allocator};
use std::marker::Model;

/// How many numbers a word stands for.
const WORD_BITS: u32 = 64;

/// A set of numbers below a limit: a bit for each, in words of 64. Contracts see the words.
///
/// [`NumberSet::new`] allocates, and no other call does.
#[derive(Drop)]
pub struct NumberSet<A: Allocator> {
    words: Vec<u64, A>,
}

impl<A: Allocator> Model for NumberSet<A> {
    ghost use Rattle.std.specs.Prelude.{◌≤◌, ◌^◌, ℕ, List, length};

    ghost Value = { List ℕ };

    ghost view = { λ s. s.words.items };

    ghost invariant = { λ s. length s.words.items ≤ 2 ^ 26 };
}

impl<A: Allocator + Copy> NumberSet<A> {
    /// The empty set, with room for the numbers below the limit.
    pub fn new(alloc: A, limit: u32) -> Result<NumberSet<A>, AllocError>
        ensures words { IfOk result (λ s. s ≡ replicate ((limit + 63) / 64) 0) }
        ensures empty { IfOk result (λ s. (i : ℕ) → ¬ Has s i) }
    {
        let words = limit.div_ceil(WORD_BITS);
        Ok(NumberSet {
            words: Vec::from_elem(alloc, 0u64, words as usize)?,
        })
    }
}

impl<A: Allocator> NumberSet<A> {
    /// How many words the set has.
    #[inline]
    pub fn words(&self) -> usize
        ensures { result ≡ length self.now }
    {
        self.words.len()
    }

    /// Whether a number is in the set.
    #[inline]
    pub fn has(&self, number: u32) -> bool
        ensures { IsTrue result ↔ Has self.now number }
    {
        match self.words.get((number / WORD_BITS) as usize) {
            Some(word) => is_set(*word, number % WORD_BITS),
            None => false,
        }
    }

    /// Puts a number into the set. The caller ensures that there is room for it.
    #[inline]
    pub fn insert(&mut self, number: u32)
        requires { number < 64 * length self.old }
        ensures { Adds self.old number self.new }
    {
        self.words[(number / WORD_BITS) as usize] |= 1 << (number % WORD_BITS);
    }

    /// Takes a number out of the set. The caller ensures that the set has it.
    #[inline]
    pub fn remove(&mut self, number: u32)
        requires { Has self.old number }
        ensures { Removes self.old number self.new }
    {
        self.words[(number / WORD_BITS) as usize] &= !(1 << (number % WORD_BITS));
    }

    /// The first number of a word. The caller ensures that there is such a word.
    #[inline]
    pub fn first_of(&self, word: usize) -> Option<u32>
        requires { word < length self.now }
        ensures { MatchOption result (slice_index_or self.now word 0 ≡ 0)
            (λ n. Has self.now n × (n / 64 ≡ word)) }
    {
        let bits = self.words[word];
        if bits == 0 {
            return None;
        }
        let first = lowest_bit(bits);
        Some(WORD_BITS * word as u32 + first)
    }

    /// Puts the numbers of another set into this one, but for those that it has no room for.
    pub fn add_all<B: Allocator>(&mut self, others: &NumberSet<B>)
        ensures { Unites self.old others.now self.new }
    {
        for k in 0..self.words.len().min(others.words.len()) {
            self.words[k] |= others.words[k];
        }
    }

    /// Takes all numbers out of the set.
    pub fn clear(&mut self)
        ensures words { self.new ≡ replicate (length self.old) 0 }
        ensures empty { (i : ℕ) → ¬ Has self.new i }
    {
        self.words.fill(0);
    }
}

/// Whether this bit of a word is 1.
#[inline]
fn is_set(word: u64, bit: u32) -> bool
    requires { bit < 64 }
    ensures { IsTrue result ↔ (bit_at word bit ≡ 1) }
{
    word >> bit & 1 == 1
}

/// The place of the lowest bit that is 1, of a word that is not 0.
#[inline]
fn lowest_bit(word: u64) -> u32
    requires { 0 < word }
    ensures { (result < 64) × (bit_at word result ≡ 1) }
{
    word.trailing_zeros()
}
