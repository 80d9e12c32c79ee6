//! Which labels the label files of a circuit's input values give to its input wires.

ghost use Rattle.std.specs.Prelude.{◌≡◌, ◌≢◌, ◌↔◌, ◌<◌, ◌≤◌, List, length, is_none, flat_map, All, IsTrue, IsSomeAnd, IfOk, IfErr, OnOk};
ghost use Rattle.std.specs.List.{list_any};
ghost use Rattle.gc_netlist.specs.Circuit.{IsLawful};
ghost use Rattle.gc_file.specs.LabelFile.{LabelFileParts};
ghost use Rattle.gc_job.specs.Binding.{HasCounts, AreInOrder, IsFileInOrder, LabelsFault, FirstLabelsFault, AreBound};
ghost use Rattle.gc_job.specs.Places.{ArePlaces, labels_at};

use crate::fault::BindFault;
use gc_circuit::Circuit;
use gc_file::{Garbled, LabelFile};
use gc_label::Label;
use gc_netlist::MAX_VALUES;
use std::alloc::{AllocError, Allocator};

/// Whether the garbled file has a row pair for each AND gate and a decode bit for each output wire.
pub(crate) fn has_counts<A: Allocator, C: Allocator>(
    circuit: &Circuit<C>,
    garbled: &Garbled<A>,
) -> bool
    ensures { IsTrue result ↔ HasCounts circuit.now garbled.now }
{
    garbled.rows().len() == circuit.and_count() as usize
        && garbled.decode_bits().len() == circuit.output_wires() as usize
}

/// The labels of the input wires, from a label file for each input value, in any order: those of value 0, then those of
/// value 1, and so on.
pub(crate) fn bound_labels<A: Allocator + Copy, B: Allocator, C: Allocator>(
    alloc: A,
    circuit: &Circuit<C>,
    files: &[LabelFile<B>],
) -> Result<Vec<Label, A>, BindFault>
    requires { IsLawful circuit.now }
    ensures ok { IfOk result (λ labels. AreBound circuit.now.input_widths files.now labels.items) }
    ensures err { IfErr result (λ fault. fault ≢ BindFault.Memory
        → FirstLabelsFault circuit.now.input_widths files.now fault) }
{
    let widths = circuit.input_widths();
    let places = places_of(widths, files)?;
    let (places, _) = places.split_at(widths.len());
    if is_missing(places) {
        return Err(BindFault::MissingValue);
    }
    Ok(joined_labels(alloc, circuit.input_wires(), places, files)?)
}

/// Whether one of the places is missing.
fn is_missing(places: &[Option<usize>]) -> bool
    ensures { result ≡ list_any is_none places.now }
{
    places.iter().any(|place| place.is_none())
}

/// One place for each input value that a circuit can have.
const PLACES: usize = MAX_VALUES as usize;

/// The place of the label file of each input value, where one is found.
fn places_of<B: Allocator>(
    widths: &[u32],
    files: &[LabelFile<B>],
) -> Result<[Option<usize>; PLACES], BindFault>
    requires { length widths.now ≤ MAX_VALUES }
    ensures in_order { OnOk result (AreInOrder widths.now files.now (length files.now)) }
    ensures places { IfOk result (ArePlaces files.now) }
    ensures err { IfErr result (FirstLabelsFault widths.now files.now) }
{
    let mut places = [None; PLACES];
    for (i, file) in files.iter().enumerate() {
        let value = value_of(widths, &places, file)?;
        places[value] = Some(i);
    }
    Ok(places)
}

/// The input value that a label file is for. The caller ensures that there are places for all values.
fn value_of<B: Allocator>(
    widths: &[u32],
    places: &[Option<usize>],
    file: &LabelFile<B>,
) -> Result<usize, BindFault>
    requires { length widths.now ≤ length places.now }
    ensures value { IfOk result (λ value. value ≡ file.now.index) }
    ensures bound { IfOk result (λ value. value < length widths.now) }
    ensures ok { OnOk result ((before : List LabelFileParts) → ArePlaces before places.now
        → IsFileInOrder widths.now before file.now) }
    ensures err { IfErr result (λ fault. (before : List LabelFileParts)
        → ArePlaces before places.now → LabelsFault widths.now before file.now fault) }
{
    let value = file.index() as usize;
    let Some(width) = widths.get(value) else {
        return Err(BindFault::NoSuchValue);
    };
    if file.labels().len() != *width as usize {
        return Err(BindFault::WrongWidth);
    }
    if places[value].is_some() {
        return Err(BindFault::DoubleValue);
    }
    Ok(value)
}

/// The labels of the files at these places, one after another. The caller ensures that there are such files. It
/// allocates once, where there are as many labels as given.
fn joined_labels<A: Allocator + Copy, B: Allocator>(
    alloc: A,
    count: u32,
    places: &[Option<usize>],
    files: &[LabelFile<B>],
) -> Result<Vec<Label, A>, AllocError>
    requires { All (λ place. IsSomeAnd place (λ k. k < length files.now)) places.now }
    ensures { IfOk result (λ labels. labels.items ≡ flat_map (labels_at files.now) places.now) }
{
    let mut labels = Vec::with_capacity(alloc, count as usize)?;
    for place in places {
        labels.extend_from_slice(files[place.unwrap()].labels())?;
    }
    Ok(labels)
}
