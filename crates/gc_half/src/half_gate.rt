//! The two halves of an AND gate: the procedures GbAnd and Ev of "Two Halves Make a Whole" (Zahur, Rosulek
//! and Evans, 2015).

ghost use Rattle.std.specs.Prelude.{◌≡◌, ◌+◌, ◌*◌, ℕ, map};
ghost use Rattle.gc_half.specs.Hash.{hash, numbered_from};
ghost use Rattle.gc_half.specs.HalfGate.{and_active, and_garbled, and_hashes, and_zero, evaluator_row, generator_row};

use crate::first::FirstAnd;
use crate::garbling::{GarbledAnd, RowPair};
use crate::hash::{tweak_hash_eight, tweak_hash_four};
use gc_label::{Label, Offset};

/// An AND gate to be garbled.
#[derive(Clone, Copy, PartialEq, Eq, Debug)]
pub struct AndGate {
    /// Its AND number: it is the k-th AND gate in file order, counted from 0.
    pub k: u32,
    /// The offset of the garbling.
    pub offset: Offset,
    /// The zero label of the wire that it reads first.
    pub a: Label,
    /// The zero label of the wire that it reads second.
    pub b: Label,
}

impl AndGate {
    /// What its garbling hashes: both labels of the wire that it reads first under its first tweak, and both of the
    /// wire that it reads second under its second tweak.
    #[inline]
    fn hashed(&self, first: FirstAnd) -> [(Label, u64); 4]
        ensures { map (λ input. hash input.0 input.1) result
            ≡ and_hashes (numbered_from first hash)
            self.now.k self.now.offset self.now.a self.now.b }
    {
        let r = self.offset.label();
        let first = first.tweak(self.k);
        let second = first + 1;
        [
            (self.a, first),
            (self.a.xor(r), first),
            (self.b, second),
            (self.b.xor(r), second),
        ]
    }

    /// What its garbling gives, from these hashes.
    #[inline]
    fn garbled(&self, hashes: [Label; 4]) -> GarbledAnd
        ensures { (h : ℕ → ℕ → ℕ)
            → hashes ≡ and_hashes h self.now.k self.now.offset self.now.a self.now.b
            → result ≡ and_garbled h self.now.k self.now.offset self.now.a self.now.b }
    {
        let [hash_a, hash_other_a, hash_b, hash_other_b] = hashes;
        let generator = hash_a
            .xor(hash_other_a)
            .xor(self.offset.label().times(self.b.colour()));
        let evaluator = hash_b.xor(hash_other_b).xor(self.a);
        let generator_half = hash_a.xor(generator.times(self.a.colour()));
        let evaluator_half = hash_b.xor(evaluator.xor(self.a).times(self.b.colour()));
        GarbledAnd {
            zero_label: generator_half.xor(evaluator_half),
            rows: RowPair {
                generator,
                evaluator,
            },
        }
    }
}

/// Garbles the k-th AND gate, counted from 0, from the zero labels `a` and `b` of the wires that it reads.
pub fn garble_and(k: u32, offset: Offset, a: Label, b: Label) -> GarbledAnd
    ensures zero_label { result.zero_label ≡ and_zero hash k offset a b }
    ensures generator { result.rows.generator ≡ generator_row hash k offset a b }
    ensures evaluator { result.rows.evaluator ≡ evaluator_row hash k offset a b }
{
    garble_and_from(FirstAnd::ZERO, AndGate { k, offset, a, b })
}

/// Garbles an AND gate, where AND gates are numbered from `first` on. It is not inlined: its many variables would push
/// those of the loops that call it out of the registers.
#[inline(never)]
pub(crate) fn garble_and_from(first: FirstAnd, gate: AndGate) -> GarbledAnd
    ensures { result ≡ and_garbled (numbered_from first hash) gate.k gate.offset gate.a gate.b }
{
    gate.garbled(tweak_hash_four(gate.hashed(first)))
}

/// Garbles two AND gates at once, each as [`garble_and`] does.
pub fn garble_two_ands(one: AndGate, other: AndGate) -> (GarbledAnd, GarbledAnd)
    ensures one { result.0 ≡ and_garbled hash one.k one.offset one.a one.b }
    ensures other { result.1 ≡ and_garbled hash other.k other.offset other.a other.b }
{
    let (one, other) = garble_two_ands_from(FirstAnd::ZERO, one, other);
    (one, other)
}

/// The same, where AND gates are numbered from `first` on.
#[inline]
pub(crate) fn garble_two_ands_from(
    first: FirstAnd,
    one: AndGate,
    other: AndGate,
) -> (GarbledAnd, GarbledAnd)
    ensures one { result.0
        ≡ and_garbled (numbered_from first hash) one.k one.offset one.a one.b }
    ensures other { result.1
        ≡ and_garbled (numbered_from first hash) other.k other.offset other.a other.b }
{
    let (one_hashes, other_hashes) = tweak_hash_eight(one.hashed(first), other.hashed(first));
    (one.garbled(one_hashes), other.garbled(other_hashes))
}

/// An AND gate to be evaluated.
#[derive(Clone, Copy, PartialEq, Eq, Debug)]
pub struct AndStep {
    /// Its AND number: it is the k-th AND gate in file order, counted from 0.
    pub k: u32,
    /// Its row pair.
    pub rows: RowPair,
    /// The active label of the wire that it reads first.
    pub a: Label,
    /// The active label of the wire that it reads second.
    pub b: Label,
}

impl AndStep {
    /// What its evaluation hashes: the label of the wire that it reads first under its first tweak, and that of the
    /// wire that it reads second under its second tweak.
    #[inline]
    fn hashed(&self, first: FirstAnd) -> ((Label, u64), (Label, u64))
        ensures { result ≡ (
          (self.now.a, 2 * first + 2 * self.now.k),
          (self.now.b, 2 * first + (2 * self.now.k + 1)),
        ) }
    {
        let first = first.tweak(self.k);
        ((self.a, first), (self.b, first + 1))
    }

    /// The active label of the wire that it sets, from these hashes.
    #[inline]
    fn active(&self, first: FirstAnd, hash_a: Label, hash_b: Label) -> Label
        requires first { hash_a ≡ numbered_from first hash self.now.a (2 * self.now.k) }
        requires second { hash_b ≡ numbered_from first hash self.now.b (2 * self.now.k + 1) }
        ensures { result ≡ and_active (numbered_from first hash) self.now.k
            self.now.rows.generator self.now.rows.evaluator self.now.a self.now.b }
    {
        let generator_half = hash_a.xor(self.rows.generator.times(self.a.colour()));
        let evaluator_half = hash_b.xor(self.rows.evaluator.xor(self.a).times(self.b.colour()));
        generator_half.xor(evaluator_half)
    }
}

/// Evaluates the k-th AND gate, counted from 0, from its rows and the active labels `a` and `b` of the wires that it
/// reads. Returns the active label of the wire that it sets.
pub fn eval_and(k: u32, generator: Label, evaluator: Label, a: Label, b: Label) -> Label
    ensures { result ≡ and_active hash k generator evaluator a b }
{
    let rows = RowPair {
        generator,
        evaluator,
    };
    eval_and_from(FirstAnd::ZERO, AndStep { k, rows, a, b })
}

/// Evaluates an AND gate, where AND gates are numbered from `first` on.
pub(crate) fn eval_and_from(first: FirstAnd, step: AndStep) -> Label
    ensures { result ≡ and_active (numbered_from first hash)
        step.k step.rows.generator step.rows.evaluator step.a step.b }
{
    let AndStep { a, b, .. } = step;
    let ((_, one), (_, other)) = step.hashed(first);
    // Four hashes take less time than two that are computed one after the other, so two of the four lanes are unused.
    let [hash_a, hash_b, _, _] = tweak_hash_four([(a, one), (b, other), (a, one), (b, other)]);
    step.active(first, hash_a, hash_b)
}

/// Evaluates two AND gates at once, each as [`eval_and`] does.
pub fn eval_two_ands(one: AndStep, other: AndStep) -> (Label, Label)
    ensures one { result.0
        ≡ and_active hash one.k one.rows.generator one.rows.evaluator one.a one.b }
    ensures other { result.1
        ≡ and_active hash other.k other.rows.generator other.rows.evaluator other.a other.b }
{
    eval_two_ands_from(FirstAnd::ZERO, one, other)
}

/// The same, where AND gates are numbered from `first` on.
#[inline]
pub(crate) fn eval_two_ands_from(first: FirstAnd, one: AndStep, other: AndStep) -> (Label, Label)
    ensures one { result.0 ≡ and_active (numbered_from first hash)
        one.k one.rows.generator one.rows.evaluator one.a one.b }
    ensures other { result.1 ≡ and_active (numbered_from first hash)
        other.k other.rows.generator other.rows.evaluator other.a other.b }
{
    let (one_first, one_second) = one.hashed(first);
    let (other_first, other_second) = other.hashed(first);
    let [one_a, one_b, other_a, other_b] = tweak_hash_four([
        one_first,
        one_second,
        other_first,
        other_second,
    ]);
    (
        one.active(first, one_a, one_b),
        other.active(first, other_a, other_b),
    )
}

/// Evaluates four AND gates at once, each as [`eval_and`] does.
pub fn eval_four_ands(steps: [AndStep; 4]) -> [Label; 4]
    ensures { result ≡ map (λ step.
        and_active hash step.k step.rows.generator step.rows.evaluator step.a step.b) steps }
{
    eval_four_ands_from(FirstAnd::ZERO, steps)
}

/// The same, where AND gates are numbered from `first` on.
#[inline]
pub(crate) fn eval_four_ands_from(first: FirstAnd, steps: [AndStep; 4]) -> [Label; 4]
    ensures { result ≡ map (λ step. and_active (numbered_from first hash)
        step.k step.rows.generator step.rows.evaluator step.a step.b) steps }
{
    let [a, b, c, d] = steps;
    let (a_first, a_second) = a.hashed(first);
    let (b_first, b_second) = b.hashed(first);
    let (c_first, c_second) = c.hashed(first);
    let (d_first, d_second) = d.hashed(first);
    let (one, other) = tweak_hash_eight(
        [a_first, a_second, b_first, b_second],
        [c_first, c_second, d_first, d_second],
    );
    let [a_hash_a, a_hash_b, b_hash_a, b_hash_b] = one;
    let [c_hash_a, c_hash_b, d_hash_a, d_hash_b] = other;
    [
        a.active(first, a_hash_a, a_hash_b),
        b.active(first, b_hash_a, b_hash_b),
        c.active(first, c_hash_a, c_hash_b),
        d.active(first, d_hash_a, d_hash_b),
    ]
}
