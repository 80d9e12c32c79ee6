//! Each growth refused in turn of the calls of circuits, values, garbling and streaming, and calls that don't allocate.
//! What a call returns otherwise is for its clauses to say.

use gc_circuit::{
    Arrays, ArraysFault, Circuit, GateNumbers, Memory, ReadFault, ValueFault, fits, plain_eval,
    read_value, show_value,
};
use gc_fixtures::circuits::{FULL_ADDER, many_ands, one_zero_one};
use gc_fixtures::compare::equal;
use gc_fixtures::files::zero_seed;
use gc_fixtures::growths::{Returned, answer_of, runs_refused};
use gc_fixtures::refusing::Refusing;
use gc_half::{
    FirstAnd, RowPair, Start, StreamingEvaluator, StreamingGarbler, garble_one_thread, garble_two,
    input_zero_labels, padded_labels,
};
use gc_label::{Label, offset};
use linked_list_allocator::LocalHeap;
use std::alloc::Allocator;
use std::test::Fail;

/// A call that asks for memory.
#[derive(Clone, Copy, PartialEq, Debug)]
enum Call {
    Read,
    Arrays,
    Copy,
    Canon,
    ReadBits,
    ReadHex,
    ShowValue,
    PlainEval,
    ZeroLabels,
    ActiveLabels,
    Garble,
    GarbleTwo,
    Garbler,
    GarblerUnderSeed,
    Evaluator,
}

/// The fault of arrays where an allocation is refused.
const NO_ROOM: ArraysFault = ArraysFault {
    fault: ReadFault::Memory,
    gate: None,
    wire: None,
};

/// The calls, and how many growths each asks for.
static GROWTHS: [(Call, u64); 15] = [
    (Call::Read, 4),
    (Call::Arrays, 4),
    (Call::Copy, 3),
    (Call::Canon, 4),
    (Call::ReadBits, 1),
    (Call::ReadHex, 1),
    (Call::ShowValue, 1),
    (Call::PlainEval, 2),
    (Call::ZeroLabels, 1),
    (Call::ActiveLabels, 1),
    (Call::Garble, 2),
    (Call::GarbleTwo, 4),
    (Call::Garbler, 1),
    (Call::GarblerUnderSeed, 1),
    (Call::Evaluator, 1),
];

/// The circuit of an AND gate, made of arrays.
fn made_and<A: Allocator + Copy>(heap: A) -> Result<Circuit<A>, ArraysFault> {
    let gate = GateNumbers {
        operation: 1,
        first: 0,
        second: 1,
        set: 2,
    };
    let arrays = Arrays {
        wires: 3,
        input_widths: &[2],
        output_widths: &[1],
        gates: &[gate],
    };
    Circuit::from_arrays(heap, arrays)
}

/// What beginning a garbler or an evaluator of the circuit returned, which has three input wires.
fn begun<A: Allocator + Copy>(call: Call, heap: A, circuit: &Circuit) -> Returned {
    let zero_labels = &[Label::ZERO; 3];
    let Some(first) = FirstAnd::new(0, circuit.and_count()) else {
        return Returned::Other;
    };
    if circuit.input_wires() != 3 {
        return Returned::Other;
    }
    let start = Start {
        offset: offset(&zero_seed()),
        zero_labels,
        first,
    };
    if call == Call::Garbler {
        answer_of(StreamingGarbler::begin(heap, circuit, start), Memory)
    } else {
        let evaluator = StreamingEvaluator::begin(heap, circuit, start.first, zero_labels);
        answer_of(evaluator, Memory)
    }
}

/// What a call returned over this memory, of the full adder or of values for it.
fn answer<A: Allocator + Copy>(
    call: Call,
    heap: A,
    circuit: &Circuit,
    values: &[Vec<bool>],
) -> Returned {
    match call {
        Call::Read => answer_of(
            Circuit::read(heap, FULL_ADDER.as_bytes()),
            ReadFault::Memory,
        ),
        Call::Arrays => answer_of(made_and(heap), NO_ROOM),
        Call::Copy => answer_of(circuit.try_clone(heap), Memory),
        Call::Canon => answer_of(circuit.canon(heap), Memory),
        Call::ReadBits => answer_of(read_value(heap, b"100000000001", 12), ValueFault::Memory),
        Call::ReadHex => answer_of(read_value(heap, b"x0108", 12), ValueFault::Memory),
        Call::ShowValue => answer_of(show_value(heap, &[true, false]), Memory),
        Call::PlainEval => {
            if !fits(circuit, values) {
                return Returned::Other;
            }
            answer_of(plain_eval(heap, circuit, values), Memory)
        }
        Call::ZeroLabels => answer_of(input_zero_labels(heap, circuit, &zero_seed()), Memory),
        Call::ActiveLabels => answer_of(padded_labels(heap, 5, &[Label::ZERO; 2]), Memory),
        Call::Garble => answer_of(garble_one_thread(heap, circuit, &zero_seed()), Memory),
        Call::GarbleTwo => answer_of(
            garble_two(heap, circuit, &zero_seed(), &zero_seed()),
            Memory,
        ),
        Call::GarblerUnderSeed => answer_of(
            StreamingGarbler::begin_under_seed(heap, circuit, &zero_seed()),
            Memory,
        ),
        Call::Garbler | Call::Evaluator => begun(call, heap, circuit),
    }
}

#[test]
fn each_growth_refused(rt: HostRuntime) -> Result<(), Fail> {
    let circuit = Circuit::read(rt.alloc(), FULL_ADDER.as_bytes())?;
    let values = one_zero_one(rt.alloc())?;
    for (call, growths) in GROWTHS {
        let refused = runs_refused(rt.alloc(), |heap| answer(call, heap, &circuit, &values));
        equal((call, refused), (call, Ok(growths)))?;
    }
    Ok(())
}

/// Reads a circuit and garbles it in this memory.
fn garbles<A: Allocator + Copy>(heap: A, text: &str) -> Result<(), Fail> {
    let circuit = Circuit::read(heap, text.as_bytes())?;
    drop(garble_one_thread(heap, &circuit, &zero_seed())?);
    Ok(())
}

/// Room for all gates, and room for all rows, is taken at once.
#[test]
fn growths_of_many_gates(rt: HostRuntime) -> Result<(), Fail> {
    let text = many_ands(rt.alloc(), 1100)?;
    let heap = Refusing::never(rt.alloc());
    garbles(&heap, text.as_str())?;
    equal(heap.growths(), 6)
}

/// A number of gates in a header takes no room by itself: 1,024 bytes suffice.
#[test]
fn a_claimed_number_of_gates(rt: HostRuntime) -> Result<(), Fail> {
    let heap = LocalHeap::new(rt.alloc(), 1024)?;
    let read = Circuit::read(&heap, b"16777216 1\n0\n0\n1 1 0 0 EQ\n");
    equal(read.err(), Some(ReadFault::Truncated))
}

/// Reads the full adder in this memory, and calls each reader of it.
fn reads<A: Allocator + Copy>(heap: A, values: &[Vec<bool>]) -> Result<bool, Fail> {
    let circuit = Circuit::read(heap, FULL_ADDER.as_bytes())?;
    Ok(
        circuit.gates() == 5
            && circuit.gate(2).operation.is_and()
            && circuit.wires() == 8
            && circuit.and_count() == 1
            && circuit.input_widths().len() == 3
            && circuit.output_widths().len() == 1
            && circuit.input_wires() == 3
            && circuit.output_wires() == 2
            && circuit.digest()[0] == 0xc0
            && circuit.equals(&circuit)
            && fits(&circuit, values),
    )
}

/// There are the growths of reading, and none of the readers.
#[test]
fn a_circuit_that_is_read_grows_nothing(rt: HostRuntime) -> Result<(), Fail> {
    let values = one_zero_one(rt.alloc())?;
    let heap = Refusing::never(rt.alloc());
    let is_read = reads(&heap, &values)?;
    equal((is_read, heap.growths()), (true, 4))
}

/// Of a garbler only the beginning allocates, once.
#[test]
fn no_growths_of_pieces(rt: HostRuntime) -> Result<(), Fail> {
    let circuit = Circuit::read(rt.alloc(), FULL_ADDER.as_bytes())?;
    let heap = Refusing::never(rt.alloc());
    let mut garbler = StreamingGarbler::begin_under_seed(&heap, &circuit, &zero_seed())?;
    let place = RowPair {
        generator: Label::ZERO,
        evaluator: Label::ZERO,
    };
    let made = garbler.next(&circuit, &mut [place; 2]);
    equal((made, heap.growths()), (1, 1))
}
