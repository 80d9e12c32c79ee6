//! What the seat that steps learns from each kind of step on the words of a gate, and how the views of a board are cut
//! and joined.

use crate::frame::Frame;
use crate::view::{GateView, Subject};
use atomic_table::{Join, Play, Split};
use gc_rounds::View;
use std::marker::PhantomData;

pub struct LoadState<R>(PhantomData<R>);

impl<J: Subject, R: Frame<J>> Play<u8, View<GateView<J>>> for LoadState<R> {
    ghost use Rattle.gc_gates.specs.Steps.{state_loaded};

    ghost then = { state_loaded R.layout };
}

pub struct LoadLow<R>(PhantomData<R>);

impl<J: Subject, R: Frame<J>> Play<u8, View<GateView<J>>> for LoadLow<R> {
    ghost use Rattle.gc_gates.specs.Steps.{low_loaded};

    ghost then = { low_loaded R.layout J.right };
}

pub struct LoadHigh<R>(PhantomData<R>);

impl<J: Subject, R: Frame<J>> Play<u8, View<GateView<J>>> for LoadHigh<R> {
    ghost use Rattle.gc_gates.specs.Steps.{high_loaded};

    ghost then = { high_loaded R.layout J.right };
}

pub struct Claim<R>(PhantomData<R>);

impl<J: Subject, R: Frame<J>> Play<u8, View<GateView<J>>> for Claim<R> {
    ghost use Rattle.gc_gates.specs.Steps.{claimed};

    ghost then = { claimed R.layout };
}

pub struct StoreHalf;

impl<J: Subject> Play<u8, View<GateView<J>>> for StoreHalf {
    ghost use Rattle.gc_gates.specs.Steps.{half_stored};

    ghost then = { half_stored };
}

pub struct StoreDone<R>(PhantomData<R>);

impl<J: Subject, R: Frame<J>> Play<u8, View<GateView<J>>> for StoreDone<R> {
    ghost use Rattle.gc_gates.specs.Steps.{done_stored};

    ghost then = { done_stored R.layout };
}

/// A load from which a view that stands for all seats learns what they made.
pub struct LearnOnce;

impl<J: Subject> Play<u8, View<GateView<J>>> for LearnOnce {
    ghost use Rattle.gc_gates.specs.Steps.{once_learnt};

    ghost then = { once_learnt };
}

/// One seat of a board, out of a view that stands for several.
pub struct Deal;

impl<J> Split<View<GateView<J>>> for Deal {
    ghost use Rattle.gc_rounds.specs.Steps.{one_less};
    ghost use Rattle.gc_gates.specs.Board.{dealt_seat};

    ghost left = { one_less };

    ghost right = { dealt_seat };
}

/// A note of what a seat knows.
pub struct Note;

impl<J> Split<View<GateView<J>>> for Note {
    ghost use Rattle.gc_gates.specs.Board.{note_of};

    ghost left = { λ v. v };

    ghost right = { note_of };
}

/// Two views in one. The second is spent.
pub struct Merge;

impl<J> Join<View<GateView<J>>> for Merge {
    ghost use Rattle.gc_rounds.specs.Steps.{merged, nobody};
    ghost use Rattle.gc_gates.specs.Gates.{no_view};
    ghost use Rattle.gc_gates.specs.Steps.{joined};

    ghost both = { λ v w. merged v w (joined v.inner w.inner) };

    ghost spent = { nobody no_view };
}
