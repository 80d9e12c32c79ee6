//! Label files.

ghost use Rattle.std.specs.Prelude.{◌≡◌, ◌%◌, length, flat_map, All, IfOk, IfErr};
ghost use Rattle.gc_label.specs.Label.{bytes_of_label};
ghost use Rattle.gc_file.specs.GarbledFile.{IsLabel};
ghost use Rattle.gc_file.specs.Reading.{IsLabelsRead, IsLabelsChecked};

use crate::fault::FileFault;
use crate::header::is_begun;
use crate::number::u32_at;
use crate::pairs::label_from_bytes;
use crate::sizes::{LABEL, LABEL_HEADER};
use gc_label::Label;
use gc_netlist::MAX_WIRES;
use std::alloc::{Allocator, Global};
use std::marker::Model;

/// The place of the index in the header.
const INDEX: usize = 8;

/// The place of the number of labels in the header.
const COUNT: usize = 12;

/// What a label file holds: the labels of one input value.
#[derive(Drop)]
pub struct LabelFile<A: Allocator = Global> {
    index: u32,
    labels: Vec<Label, A>,
}

impl<A: Allocator> Model for LabelFile<A> {
    ghost use Rattle.gc_file.specs.LabelFile.{LabelFileParts};

    ghost Value = { LabelFileParts };

    ghost view = { λ f. record { index = f.index; labels = f.labels.items } };
}

impl<A: Allocator> LabelFile<A> {
    /// The index of the input value. A file may have any number.
    pub fn index(&self) -> u32
        ensures { result ≡ self.now.index }
    {
        self.index
    }

    /// The label of each wire of the value, in wire order.
    pub fn labels(&self) -> &[Label]
        ensures { result.now ≡ self.now.labels }
    {
        &self.labels
    }
}

/// The labels whose bytes these are, 16 bytes each. It allocates once. The caller ensures that the bytes are those of
/// whole labels.
pub fn labels_from_bytes<A: Allocator>(alloc: A, bytes: &[u8]) -> Result<Vec<Label, A>, FileFault>
    requires { length bytes.now % 16 ≡ 0 }
    ensures bytes { IfOk result (λ v. flat_map bytes_of_label v.items ≡ bytes.now) }
    ensures labels { IfOk result (λ v. All IsLabel v.items) }
    ensures memory { IfErr result (λ e. e ≡ FileFault.Memory) }
{
    let mut labels = Vec::with_capacity(alloc, bytes.len() / LABEL)?;
    for i in 0..bytes.len() / LABEL {
        labels.push(label_from_bytes(&bytes[LABEL * i..LABEL * i + LABEL]))?;
    }
    Ok(labels)
}

/// The number of labels that the bytes of a label file state, all of which are there, or the first fault.
fn check_labels(bytes: &[u8]) -> Result<(), FileFault>
    ensures { IsLabelsChecked bytes.now result }
{
    if !is_begun(bytes, *b"HLABELS1") {
        return Err(FileFault::BadMagic);
    }
    if bytes.len() < LABEL_HEADER {
        return Err(FileFault::Truncated);
    }
    let count = u32_at(COUNT, bytes);
    if count > MAX_WIRES {
        return Err(FileFault::CountTooLarge);
    }
    let end = LABEL_HEADER + LABEL * count as usize;
    if bytes.len() < end {
        Err(FileFault::Truncated)
    } else if bytes.len() > end {
        Err(FileFault::Trailing)
    } else {
        Ok(())
    }
}

/// Reads a label file. Returns the file exactly where the bytes are one, and otherwise their first fault; `Memory`
/// replaces the file only where an allocation was refused. Whether there is an input value of this index, with as many
/// wires, is not checked.
pub fn read_labels<A: Allocator>(alloc: A, bytes: &[u8]) -> Result<LabelFile<A>, FileFault>
    ensures { IsLabelsRead bytes.now result }
{
    check_labels(bytes)?;
    let labels = labels_from_bytes(alloc, &bytes[LABEL_HEADER..])?;
    Ok(LabelFile {
        index: u32_at(INDEX, bytes),
        labels,
    })
}
