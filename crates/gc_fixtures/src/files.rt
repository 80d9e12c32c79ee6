//! The files of circuits under the seed of 32 zero bytes.

use crate::circuits::AND;
use gc_circuit::{Circuit, read_value};
use gc_file::{
    LabelFile, MemSink, Version, WriteFault, read_labels, write_garbled, write_garbled2,
    write_labels,
};
use gc_half::garble_one_thread;
use gc_label::Seed;
use std::alloc::Global;
use std::test::Fail;

/// The seed of 32 zero bytes.
pub fn zero_seed() -> Seed {
    Seed::from_bytes([0; 32])
}

/// What writing a garbled file returned, and the bytes that the sink then held.
#[derive(Drop)]
pub struct Written {
    pub answer: Result<u64, WriteFault>,
    pub bytes: Vec<u8>,
}

/// Writes the circuit's garbled file to a sink in memory with this limit.
pub fn write(
    alloc: Global,
    circuit: &Circuit,
    version: Version,
    limit: Option<usize>,
) -> Result<Written, Fail> {
    let seed = zero_seed();
    let garbling = garble_one_thread(alloc, circuit, &seed)?;
    let mut sink = MemSink::new(alloc, limit);
    if !garbling.fits(circuit) {
        return Err(Fail::new("the garbling does not fit its circuit"));
    }
    let answer = match version {
        Version::One => write_garbled(&mut sink, circuit, &garbling),
        Version::Two => write_garbled2(&mut sink, circuit, &garbling, &seed),
    };
    Ok(Written {
        answer,
        bytes: sink.into_bytes(),
    })
}

/// The file of one AND gate, of this version.
pub fn and_file(alloc: Global, version: Version) -> Result<Vec<u8>, Fail> {
    let circuit = Circuit::read(alloc, AND.as_bytes())?;
    Ok(write(alloc, &circuit, version, None)?.bytes)
}

/// The bytes of the label file of an input value.
pub fn label_file(
    alloc: Global,
    circuit: &Circuit,
    index: u32,
    bits: &[bool],
) -> Result<Vec<u8>, Fail> {
    let mut sink = MemSink::new(alloc, None);
    let widths = circuit.input_widths();
    if index as usize >= widths.len() || widths[index as usize] as usize != bits.len() {
        return Err(Fail::new("the circuit has no such value"));
    }
    write_labels(&mut sink, circuit, &zero_seed(), index, bits)?;
    Ok(sink.into_bytes())
}

/// The label files, read, of a circuit's input values. Values beyond those of the circuit have none.
pub fn label_files(
    alloc: Global,
    circuit: &Circuit,
    values: &[&str],
) -> Result<Vec<LabelFile>, Fail> {
    let mut files = Vec::new(alloc);
    for (index, (width, value)) in (0..).zip(circuit.input_widths().iter().zip(values)) {
        let bits = read_value(alloc, value.as_bytes(), *width)?;
        files.push(read_labels(alloc, &label_file(alloc, circuit, index, &bits)?)?)?;
    }
    Ok(files)
}
