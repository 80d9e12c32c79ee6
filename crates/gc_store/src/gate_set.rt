//! Sets of gates, from which one is taken at a time.

ghost use Rattle.std.specs.Prelude.{◌≡◌, ◌<◌, ◌≤◌, ◌*◌, ℕ, IfOk, IfSome, MatchOption, length, slice_index_or};
ghost use Rattle.gc_workers.specs.NumberSet.{Has, Adds};
ghost use Rattle.gc_store.specs.GateSet.{TakesOne};

use gc_circuit::Memory;
use gc_workers::NumberSet;
use std::alloc::Allocator;
use std::marker::Model;

/// How many gates a word has.
const WORD_BITS: u32 = 64;

/// How many gates a word of `filled` stands for.
const BLOCK_BITS: u32 = WORD_BITS * WORD_BITS;

/// A set of gates, and above it the set of its words that have a gate of the set. So the first gate is found in a few
/// steps, whether the set has few gates or many.
///
/// [`GateSet::open`] takes all its memory.
#[derive(Drop)]
pub(crate) struct GateSet<A: Allocator> {
    words: NumberSet<A>,
    filled: NumberSet<A>,
    // The words of `filled` before this one are 0.
    start: usize,
}

impl<A: Allocator> Model for GateSet<A> {
    ghost use Rattle.std.specs.Prelude.{ℕ, List};
    ghost use Rattle.gc_store.specs.GateSet.{IsGateSet};

    ghost Value = { List ℕ };

    ghost view = { λ s. s.words };

    ghost invariant = { λ s. IsGateSet s.words s.filled s.start };
}

impl<A: Allocator + Copy> GateSet<A> {
    /// The empty set, with room for this many gates.
    pub(crate) fn open(alloc: A, gates: u32) -> Result<GateSet<A>, Memory>
        ensures room { IfOk result (λ s. gates ≤ 64 * length s) }
        ensures empty { IfOk result (λ s. (i : ℕ) → ¬ Has s i) }
    {
        Ok(GateSet {
            words: NumberSet::new(alloc, gates)?,
            filled: NumberSet::new(alloc, gates.div_ceil(WORD_BITS))?,
            start: 0,
        })
    }
}

impl<A: Allocator> GateSet<A> {
    /// Puts a gate into the set. The caller ensures that the set has room for it.
    #[inline]
    #[tactic(auto, using(crate::proofs::GateSetLemmas::insert_keeps))]
    pub(crate) fn insert(&mut self, gate: u32)
        requires { gate < 64 * length self.old }
        ensures { Adds self.old gate self.new }
    {
        let word = gate / WORD_BITS;
        self.words.insert(gate);
        self.filled.insert(word);
        self.start = self.start.min((word / WORD_BITS) as usize);
    }

    /// Takes a gate out of the set. It looks from the block of this gate on, and then from the first on; which gate it
    /// finds is not promised.
    #[inline]
    pub(crate) fn take(&mut self, from: u32) -> Option<u32>
        ensures { TakesOne self.old result self.new }
    {
        let word = self.word_from((from / BLOCK_BITS) as usize)?;
        let gate = self.words.first_of(word as usize)?;
        self.words.remove(gate);
        if self.words.first_of(word as usize).is_none() {
            self.filled.remove(word);
        }
        Some(gate)
    }

    /// A word that has a gate. It looks from this block on, and then from the first on.
    #[inline]
    fn word_from(&mut self, block: usize) -> Option<u32>
        ensures found { MatchOption result ((k : ℕ) → slice_index_or self.old k 0 ≡ 0)
            (λ word. 0 < slice_index_or self.old word 0) }
        ensures same { self.new ≡ self.old }
    {
        match self.next_word(block) {
            Some(word) => Some(word),
            None => self.first_word(),
        }
    }

    /// A word that has a gate. It looks from this block on, where the block comes after the first that may have one.
    #[inline]
    fn next_word(&self, block: usize) -> Option<u32>
        ensures { IfSome result (λ word. 0 < slice_index_or self.now word 0) }
    {
        if block <= self.start {
            return None;
        }
        for i in block..self.filled.words() {
            if let Some(word) = self.filled.first_of(i) {
                return Some(word);
            }
        }
        None
    }

    /// A word that has a gate. It looks from the first on.
    #[inline]
    fn first_word(&mut self) -> Option<u32>
        ensures found { MatchOption result ((k : ℕ) → slice_index_or self.old k 0 ≡ 0)
            (λ word. 0 < slice_index_or self.old word 0) }
        ensures same { self.new ≡ self.old }
    {
        while self.start < self.filled.words() {
            if let Some(word) = self.filled.first_of(self.start) {
                return Some(word);
            }
            self.start += 1;
        }
        None
    }
}
