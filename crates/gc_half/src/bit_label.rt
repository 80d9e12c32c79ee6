//! The label that stands for a bit.

ghost use Rattle.std.specs.Prelude.{◌≡◌};
ghost use Rattle.gc_half.specs.Evaluation.{encode};

use gc_label::{Label, Offset};

/// The label that stands for a bit on a wire with this zero label: the zero label plus the bit times the offset
/// (Section 2.1 of the half-gates paper, free XOR).
///
/// It isn't inlined: in a loop over the bits of a value the compiler would make a branch of it, and the bit is a
/// secret.
#[inline(never)]
pub fn encode(offset: Offset, zero_label: Label, bit: bool) -> Label
    ensures { result ≡ encode offset zero_label bit }
{
    zero_label.xor(offset.label().times(bit))
}
