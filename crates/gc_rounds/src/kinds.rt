//! What each kind of step on a bank's word does to the view of the seat that steps, and how views are cut and joined.

use crate::inner::Inner;
use crate::view::View;
use atomic_table::{Join, Play, Split};
use std::marker::{Brand, PhantomData};

/// The round that an entry asks for. It is in no operand of the step, and decides where the seat is afterwards.
pub trait AskedRound {
    ghost use Rattle.std.specs.Prelude.{ℕ};

    ghost round: { ℕ };
}

impl AskedRound for Brand {
    ghost round = { 0 };
}

pub struct CountIn<Q>(PhantomData<Q>);

impl<I, Q: AskedRound> Play<u8, View<I>> for CountIn<Q> {
    ghost use Rattle.gc_rounds.specs.Steps.{entered};

    ghost then = { entered Q.round };
}

pub struct CountOut;

impl<I> Play<u8, View<I>> for CountOut {
    ghost use Rattle.gc_rounds.specs.Steps.{left};

    ghost then = { left };
}

pub struct MarkSealed;

impl<I> Play<u8, View<I>> for MarkSealed {
    ghost use Rattle.gc_rounds.specs.Steps.{sealed};

    ghost then = { sealed };
}

pub struct Advance;

impl<I> Play<u8, View<I>> for Advance {
    ghost use Rattle.gc_rounds.specs.Steps.{tried};

    ghost then = { tried };
}

/// One seat, out of a view that stands for several.
pub struct Deal<T>(PhantomData<T>);

impl<T, I: Inner<T>> Split<View<I>> for Deal<T> {
    ghost use Rattle.gc_rounds.specs.Steps.{one_less, newcomer};

    ghost left = { one_less };

    ghost right = { λ v. newcomer v (I.fresh v.inner) };
}

/// Two views in one. The second is spent.
pub struct Merge<T>(PhantomData<T>);

impl<T, I: Inner<T>> Join<View<I>> for Merge<T> {
    ghost use Rattle.gc_rounds.specs.Steps.{merged, nobody};

    ghost both = { λ v w. merged v w (I.both v.inner w.inner) };

    ghost spent = { nobody I.spent };
}
