//! What faults mean.

ghost use Rattle.std.specs.Prelude.{◌≡◌, ◌≤◌, length};
ghost use Rattle.gc_circuit.specs.Sentence.{meaning};

use gc_netlist::ReadFault;

/// What a fault of a circuit's text means.
pub fn meaning_of(fault: ReadFault) -> &'static str
    ensures meaning { result.now ≡ meaning fault }
    ensures short { length result.now ≤ 90 }
{
    match fault {
        ReadFault::Truncated => "the text ends before the circuit does",
        ReadFault::BadNumber => "expected a number from 0 to 4294967295",
        ReadFault::TooLarge => {
            "a circuit has at most 16777216 gates, 33554432 wires and 256 values of either side"
        }
        ReadFault::BadShape => {
            "the counts are neither 2 1 nor 1 1, or are not those of the operation"
        }
        ReadFault::UnknownOperation => "the operation is none of XOR, AND, INV, EQ and EQW",
        ReadFault::BadConstant => "the constant of EQ is neither 0 nor 1",
        ReadFault::NoSuchWire => "the circuit has no such wire",
        ReadFault::Unset => "the gate reads a wire that is no input and that no earlier gate sets",
        ReadFault::SetTwice => "the gate sets an input wire, or a wire that an earlier gate sets",
        ReadFault::OutputUnset => "the output wire is no input, and no gate sets it",
        ReadFault::TrailingTokens => "there is more text after the last gate",
        ReadFault::WidthsExceedWires => "the widths add up to more than the number of wires",
        ReadFault::Memory => "memory ran out",
    }
}
