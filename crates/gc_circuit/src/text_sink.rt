//! What takes a text piece by piece.

ghost use Rattle.std.specs.Prelude.{◌≡◌, ◌↔◌, ◌++◌, ℕ, List, [], IsTrue, OnOk};
ghost use Rattle.gc_lanes.specs.Hasher.{HoldsMessage};

use gc_lanes::LongSha256;
use sha2::Digest;
use std::alloc::{AllocError, Allocator};
use std::convert::Infallible;

/// Takes a text piece by piece.
pub trait TextSink {
    type Fault;

    // The text that was taken, where the sink was made for a text.
    ghost holds: { Self → (whole text : List ℕ) → Type 0 };

    /// Takes the piece after the text so far.
    fn put(&mut self, piece: &[u8]) -> Result<(), Self::Fault>
        ensures { OnOk result ((whole text : List ℕ)
            → holds self.old whole text → holds self.new whole (text ++ piece.now)) };
}

impl<B: Allocator> TextSink for Vec<u8, B> {
    type Fault = AllocError;

    ghost holds = { λ v whole text. v.items ≡ text };

    fn put(&mut self, piece: &[u8]) -> Result<(), AllocError> {
        self.extend_from_slice(piece)
    }
}

impl TextSink for LongSha256 {
    type Fault = Infallible;

    ghost holds = { λ s whole text. HoldsMessage s text };

    fn put(&mut self, piece: &[u8]) -> Result<(), Infallible> {
        self.update(piece);
        Ok(())
    }
}

/// What is left of a text that pieces are compared with.
#[derive(Drop)]
pub struct Comparison<'t> {
    left: &'t [u8],
}

/// A piece differs from the text.
#[derive(Drop)]
pub struct Differs;

impl<'t> Comparison<'t> {
    /// Nothing is compared yet.
    pub fn new(text: &'t [u8]) -> Comparison<'t>
        ensures { result.left.now ≡ text.now }
    {
        Comparison { left: text }
    }

    /// Whether nothing of the text is left.
    pub fn is_done(&self) -> bool
        ensures { IsTrue result ↔ (self.now.left.now ≡ []) }
    {
        self.left.is_empty()
    }
}

impl<'t> TextSink for Comparison<'t> {
    type Fault = Differs;

    ghost holds = { λ c whole text. whole ≡ text ++ c.left.now };

    fn put(&mut self, piece: &[u8]) -> Result<(), Differs> {
        let Some(left) = self.left.strip_prefix(piece) else {
            return Err(Differs);
        };
        self.left = left;
        Ok(())
    }
}
