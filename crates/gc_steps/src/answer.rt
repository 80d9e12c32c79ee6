ghost use Rattle.std.specs.Prelude.{◌≡◌};
ghost use Rattle.gc_steps.specs.Walks.{made_now};

use gc_label::Label;

/// What a step found of a gate.
#[derive(Clone, Copy, Debug, PartialEq, Eq)]
pub enum Answer {
    /// The seat made the gate: the active label of the wire that it sets.
    Made(Label),
    /// The gate is done: that label.
    Done(Label),
    /// Another seat has the gate in hand.
    Taken,
    /// The gate reads this wire, which has no label yet.
    NotYet(u32),
}

impl Answer {
    /// How many gates the step made: one or none.
    #[inline]
    pub fn made(&self) -> u64
        ensures { result ≡ made_now self.now }
    {
        match self {
            Answer::Made(_) => 1,
            _ => 0,
        }
    }
}
