//! AND gates that wait, to be made several at once.

ghost use Rattle.std.specs.Prelude.{◌≡◌, ◌<◌, [], ◌∷◌, ◌++◌, length};
ghost use Rattle.std.specs.List.{list_any};
ghost use Rattle.gc_netlist.specs.Circuit.{reads};
ghost use Rattle.gc_half.specs.Waiting.{gates_in};

use gc_circuit::Operation;

/// An AND gate that waits, and the wire that it sets.
#[derive(Clone, Copy, PartialEq, Eq, Debug)]
pub struct WaitingGate<T> {
    /// What making it takes.
    pub gate: T,
    /// The wire that it sets.
    pub set: u32,
}

/// At most three AND gates that wait, to be made together with the next one. A gate is made before another gate reads
/// the wire that it sets. A place after an empty one is not used.
#[derive(Clone, Copy, PartialEq, Eq, Debug)]
pub struct WaitingGates<T> {
    /// The gate that has waited longest.
    pub first: Option<WaitingGate<T>>,
    /// The gate after it.
    pub second: Option<WaitingGate<T>>,
    /// The last gate.
    pub third: Option<WaitingGate<T>>,
}

impl<T: Copy> WaitingGates<T> {
    /// No gates.
    #[inline]
    pub fn new() -> WaitingGates<T>
        ensures { gates_in result ≡ [] }
    {
        WaitingGates {
            first: None,
            second: None,
            third: None,
        }
    }

    /// Empties it: no gate waits.
    #[inline(always)]
    pub fn clear(&mut self)
        ensures { gates_in self.new ≡ [] }
    {
        self.first = None;
    }

    /// Whether an operation reads a wire that one of the gates sets.
    #[inline(always)]
    pub fn are_read(&self, operation: Operation) -> bool
        ensures { result ≡ list_any (λ waits. reads operation waits.set) (gates_in self.now) }
    {
        let Some(first) = &self.first else {
            return false;
        };
        if operation.reads(first.set) {
            return true;
        }
        let Some(second) = &self.second else {
            return false;
        };
        if operation.reads(second.set) {
            return true;
        }
        let Some(third) = &self.third else {
            return false;
        };
        operation.reads(third.set)
    }

    /// Has one more gate wait. The caller ensures that fewer than three wait.
    #[inline(always)]
    pub fn push(&mut self, gate: T, set: u32)
        requires { length (gates_in self.old) < 3 }
        ensures { gates_in self.new ≡ gates_in self.old ++ record { gate = gate; set = set } ∷ [] }
    {
        let waits = WaitingGate { gate, set };
        if self.first.is_none() {
            self.first = Some(waits);
            self.second = None;
        } else if self.second.is_none() {
            self.second = Some(waits);
            self.third = None;
        } else {
            self.third = Some(waits);
        }
    }
}
