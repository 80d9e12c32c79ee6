//! Each growth refused in turn of the calls that read files and of sinks in memory, and calls that don't allocate.

use crate::fixtures::read;
use gc_circuit::Circuit;
use gc_file::{
    FileFault, Garbled, GarbledReader, MemSink, MemSource, OutSink, Sink, TakeFault, Version,
    before_trailer, read_garbled, read_garbled_by_digest, read_garbled_from, read_labels,
    write_garbled, write_garbled2, write_labels,
};
use gc_fixtures::circuits::AND;
use gc_fixtures::compare::equal;
use gc_fixtures::files::{and_file, label_file, zero_seed};
use gc_fixtures::growths::{Returned, answer_of, runs_refused};
use gc_fixtures::refusing::Refusing;
use gc_half::{garble_one_thread, output_entry};
use gc_label::offset;
use sha2::{Digest, Sha256};
use std::alloc::{Allocator, Global};
use std::test::Fail;

/// A call that reads a file.
#[derive(Clone, Copy, PartialEq, Debug)]
enum Call {
    ReadGarbled,
    ReadByDigest,
    TakeGarbled,
    ReadLabels,
}

impl Call {
    /// The file that it reads, a garbled one of this version.
    fn file(self, alloc: Global, version: Version) -> Result<Vec<u8>, Fail> {
        if self == Call::ReadLabels {
            label_file(alloc, &read(alloc, AND)?, 0, &[true])
        } else {
            and_file(alloc, version)
        }
    }

    /// What it returned over this memory.
    fn answer<A: Allocator + Copy>(self, heap: A, file: &[u8]) -> Returned {
        match self {
            Call::ReadGarbled => answer_of(read_garbled(heap, file), FileFault::Memory),
            Call::ReadByDigest => {
                let digest = Sha256::digest(before_trailer(file));
                let read = read_garbled_by_digest(heap, file, &digest);
                answer_of(read, FileFault::Memory)
            }
            Call::TakeGarbled => {
                let taken = read_garbled_from(heap, &mut MemSource::new(file, None));
                answer_of(taken, TakeFault::File(FileFault::Memory))
            }
            Call::ReadLabels => answer_of(read_labels(heap, file), FileFault::Memory),
        }
    }
}

/// There is a growth for the rows, the decode bytes, the entries of version 2 and the decode bits, and one for labels.
#[test]
fn reading_files(rt: HostRuntime) -> Result<(), Fail> {
    for (call, version, growths) in [
        (Call::ReadGarbled, Version::One, 3),
        (Call::ReadGarbled, Version::Two, 4),
        (Call::ReadByDigest, Version::One, 3),
        (Call::ReadByDigest, Version::Two, 4),
        (Call::TakeGarbled, Version::Two, 4),
        (Call::ReadLabels, Version::One, 1),
    ] {
        let file = call.file(rt.alloc(), version)?;
        let refused = runs_refused(rt.alloc(), |heap| call.answer(heap, &file));
        equal((call, version, refused), (call, version, Ok(growths)))?;
    }
    Ok(())
}

/// The faults of a header, and all faults of a label file, are reported without memory: of a bit of the magic and one
/// of the number of row pairs, and of a bit of the magic and three of the number of labels.
#[test]
fn faults_before_the_rows_take_no_memory(rt: HostRuntime) -> Result<(), Fail> {
    for (call, bit) in [
        (Call::ReadGarbled, 0),
        (Call::ReadGarbled, 351),
        (Call::ReadLabels, 0),
        (Call::ReadLabels, 96),
        (Call::ReadLabels, 97),
        (Call::ReadLabels, 127),
    ] {
        let mut file = call.file(rt.alloc(), Version::Two)?;
        if let Some(byte) = file.get_mut(bit / 8) {
            *byte ^= 1 << (bit % 8);
        }
        let heap = Refusing::never(rt.alloc());
        let answer = call.answer(&heap, &file);
        equal((bit, answer, heap.growths()), (bit, Returned::Other, 0))?;
    }
    Ok(())
}

/// A header with the digest of one AND gate, 1,048,576 row pairs and one output.
const FORGED_HEADER: &str = concat!(
    "48474152424c4531",
    "48b39dc66f66f62d8630058dfe655fa07dd8d4398fd1acb1f6ce2a22c3a8fe00",
    "0000100001000000",
);

/// Reads a file that ends after this header and this number of row pairs.
fn read_rows<A: Allocator + Copy>(
    heap: A,
    header: &[u8],
    pairs: u32,
) -> Result<Garbled<A>, FileFault> {
    let mut reader = GarbledReader::new(heap);
    reader.feed(header)?;
    for _pair in 0..pairs {
        reader.feed(&[0; 32])?;
    }
    reader.end()
}

/// Room for row pairs is made as they come, one at a time, for twice as many each time, whatever number the header
/// claims.
#[test]
fn room_for_rows_doubles(rt: HostRuntime) -> Result<(), Fail> {
    let header = hex::decode(rt.alloc(), FORGED_HEADER)?;
    for (pairs, growths) in [(0, 0), (1, 1), (2, 2), (3, 3), (4, 3), (64, 7), (65, 8)] {
        let heap = Refusing::never(rt.alloc());
        let fault = read_rows(&heap, &header, pairs).err();
        let wanted = (pairs, Some(FileFault::Truncated), growths);
        equal((pairs, fault, heap.growths()), wanted)?;
    }
    Ok(())
}

static PIECE: [u8; 16_384] = [0; 16_384];

/// What came of five pieces that go to a sink in memory, which takes one that it was refused memory for the next time.
fn filled<A: Allocator>(heap: A) -> Returned {
    let mut sink = MemSink::new(heap, None);
    let mut answer = Returned::Plain;
    for _piece in 0..5 {
        if sink.put(&PIECE).is_err() {
            answer = Returned::Memory;
            if sink.put(&PIECE) != Ok(PIECE.len()) {
                return Returned::Other;
            }
        }
    }
    answer
}

/// A sink that is full makes room for twice as many bytes. It fails where that is refused, and nowhere else. Making a
/// sink doesn't allocate.
#[test]
fn writing_to_memory(rt: HostRuntime) -> Result<(), Fail> {
    equal(runs_refused(rt.alloc(), |heap| filled(heap)), Ok(4))
}

/// Writes a garbled file of each version of the AND gate, which is read and garbled in this memory, to a room of 300
/// bytes, and a label file twice. Returns whether each is written but the last, for which there is no room.
fn written<A: Allocator + Copy>(heap: A) -> Result<[bool; 4], Fail> {
    let circuit = Circuit::read(heap, AND.as_bytes())?;
    let seed = zero_seed();
    let garbling = garble_one_thread(heap, &circuit, &seed)?;
    if !garbling.fits(&circuit)
        || circuit.input_widths() != [1, 1].as_slice()
        || circuit.output_wires() == 0
    {
        return Err(Fail::new("the garbling is of an AND gate"));
    }
    output_entry(&circuit, &garbling, offset(&seed), 0, false);
    let mut room = [0; 300];
    let mut sink = OutSink::new(room.as_mut_slice());
    Ok([
        write_garbled(&mut sink, &circuit, &garbling).is_ok(),
        write_garbled2(&mut sink, &circuit, &garbling, &seed).is_ok(),
        write_labels(&mut sink, &circuit, &seed, 1, &[true]).is_ok(),
        write_labels(&mut sink, &circuit, &seed, 1, &[true]).is_ok(),
    ])
}

/// The writers grow nothing over a sink that doesn't allocate, and neither does an entry. Reading and garbling do.
#[test]
fn writing_and_an_entry_take_no_memory(rt: HostRuntime) -> Result<(), Fail> {
    let heap = Refusing::never(rt.alloc());
    let found = written(&heap)?;
    equal((found, heap.growths()), ([true, true, true, false], 6))
}
