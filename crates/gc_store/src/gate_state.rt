//! How far a gate is, in a byte.

ghost use Rattle.std.specs.Prelude.{◌≡◌, ◌↔◌, IsTrue};
ghost use Rattle.gc_store.specs.declared.gate_state.GateState.TheVariants as mark;

/// How far a gate is.
#[derive(Clone, Copy)]
pub enum GateState {
    Free,
    Claimed,
    Finished,
}

impl GateState {
    #[inline]
    pub(crate) fn is_claimed(self) -> bool
        ensures { IsTrue result ↔ (self ≡ mark.Claimed) }
    {
        matches!(self, GateState::Claimed)
    }
}
