//! The number of a circuit's first AND gate.

ghost use Rattle.std.specs.Prelude.{◌≡◌, ◌+◌, ◌*◌, ◌^◌, ◌≤◌, MatchOption};

use std::marker::Model;

/// The largest sum of the number of a first AND gate and the number of AND gates.
const LIMIT: u64 = 1 << 62;

/// The number of a circuit's first AND gate; the others follow it in file order. It is at most 2^62, so that each tweak
/// is a number of 64 bits. AND gate k has the tweaks 2(first + k) and 2(first + k) + 1.
///
/// Under one offset use no AND number twice. Where two AND gates read one wire under one tweak, the sum of their
/// generator rows is zero or the offset itself, and whoever has the offset has every label. Evaluation is right all the
/// same, so no contract says it.
#[derive(Clone, Copy, PartialEq, Eq, Debug)]
pub struct FirstAnd {
    number: u64,
}

impl Model for FirstAnd {
    ghost use Rattle.std.specs.Prelude.{ℕ, ◌≤◌, ◌^◌};

    ghost Value = { ℕ };

    ghost view = { λ f. f.number };

    ghost invariant = { λ f. f.number ≤ 2 ^ 62 };

    ghost inverse = { λ n. record { number = n } };
}

impl FirstAnd {
    /// AND gates are numbered from 0 on, as under a seed.
    pub const ZERO: FirstAnd = FirstAnd { number: 0 };

    /// This number for the first of `and_gates` AND gates; none where the two add up to more than 2^62.
    pub fn new(number: u64, and_gates: u32) -> Option<FirstAnd>
        ensures { MatchOption result (¬ (number + and_gates ≤ 2 ^ 62))
            (λ first. (first ≡ number) × (number + and_gates ≤ 2 ^ 62)) }
    {
        let room = LIMIT - u64::from(and_gates);
        if number <= room {
            Some(FirstAnd { number })
        } else {
            None
        }
    }

    /// The number after those of `and_gates` AND gates that are numbered from this one on. The caller ensures that the
    /// sum is at most 2^62.
    pub(crate) fn plus(self, and_gates: u32) -> FirstAnd
        requires { self + and_gates ≤ 2 ^ 62 }
        ensures { result ≡ self + and_gates }
    {
        FirstAnd {
            number: self.number + u64::from(and_gates),
        }
    }

    /// The first tweak of the k-th AND gate, counted from 0. Its second tweak is the next number.
    #[inline]
    pub(crate) fn tweak(self, k: u32) -> u64
        ensures tweak { result ≡ 2 * self + 2 * k }
        ensures fits { self + k + 1 ≤ 2 ^ 63 }
    {
        2 * self.number + 2 * u64::from(k)
    }
}
