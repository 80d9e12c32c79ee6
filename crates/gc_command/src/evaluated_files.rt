//! The garbled file and the label files of an evaluation.

ghost use Rattle.std.specs.Prelude.{◌≡◌, ℕ, List, map, IfOk, IfErr, IfSome, OnOk};
ghost use Rattle.gc_file.specs.GarbledFile.{IsGarbledFile};
ghost use Rattle.gc_file.specs.LabelFile.{IsLabelFile};
ghost use Rattle.gc_disk.specs.Files.{HasFailed};
ghost use Rattle.gc_command.specs.Eval.{AreFilesGiven, AreLabelFiles, HasFilesFault, HasGarbledFault, HasLabelFault, HasLabelFilesFault};

use crate::fault::Fault;
use crate::job::GivenFiles;
use gc_disk::Files;
use gc_file::{Garbled, LabelFile, read_garbled_from, read_labels};
use std::alloc::Allocator;
use std::convert::AsStr;

/// Whether the garbled file and the label files of these names can be read ahead of their turn: all are regular files.
pub fn are_regular<N: AsStr, F: Files>(garbled: &str, labels: &[N], files: &F) -> bool {
    files.is_regular(garbled) && labels.iter().all(|name| files.is_regular(name.as_str()))
}

/// The garbled file and the label files of these names. Each is read and checked before the next is opened.
pub fn read_named<N: AsStr, A: Allocator + Copy, F: Files>(
    alloc: A,
    garbled: &str,
    labels: &[N],
    files: &mut F,
) -> Result<GivenFiles<A>, Fault>
    ensures given { IfOk result (λ given. AreFilesGiven (F.bytes files.old) garbled.now
        (map N.text labels.now) given.0 given.1.items) }
    ensures fault { IfErr result (HasFilesFault (F.bytes files.old)
        (HasFailed (F.failures files.old) (F.failures files.new))
        garbled.now (map N.text labels.now)) }
    ensures counted { OnOk result (F.failures files.new ≡ F.failures files.old) }
    ensures same { (n : List ℕ) → F.bytes files.new n ≡ F.bytes files.old n }
{
    let garbled = read_garbled_file(alloc, garbled, files)?;
    let labels = read_label_files(alloc, labels, files)?;
    Ok((garbled, labels))
}

/// The garbled file of this name, read in pieces.
fn read_garbled_file<A: Allocator + Copy, F: Files>(
    alloc: A,
    name: &str,
    files: &mut F,
) -> Result<Garbled<A>, Fault>
    ensures garbled { IfOk result
        (λ g. IfSome (F.bytes files.old name.now) (λ held. IsGarbledFile held g)) }
    ensures fault { IfErr result (HasGarbledFault (F.bytes files.old)
        (HasFailed (F.failures files.old) (F.failures files.new)) name.now) }
    ensures counted { OnOk result (F.failures files.new ≡ F.failures files.old) }
    ensures same { (n : List ℕ) → F.bytes files.new n ≡ F.bytes files.old n }
{
    let mut source = files.open(name)?;
    let taken = read_garbled_from(alloc, &mut source);
    files.shut(name, source);
    Ok(taken?)
}

/// The label files of these names. Each is read and checked before the next is opened.
pub fn read_label_files<N: AsStr, A: Allocator + Copy, F: Files>(
    alloc: A,
    names: &[N],
    files: &mut F,
) -> Result<Vec<LabelFile<A>, A>, Fault>
    ensures labels { IfOk result (λ labels.
        AreLabelFiles (F.bytes files.old) (map N.text names.now) labels.items) }
    ensures fault { IfErr result (HasLabelFilesFault (F.bytes files.old)
        (HasFailed (F.failures files.old) (F.failures files.new)) (map N.text names.now)) }
    ensures counted { OnOk result (F.failures files.new ≡ F.failures files.old) }
    ensures same { (n : List ℕ) → F.bytes files.new n ≡ F.bytes files.old n }
{
    let mut labels = Vec::with_capacity(alloc, names.len())?;
    for name in names {
        labels.push(read_label_file(alloc, name.as_str(), files)?)?;
    }
    Ok(labels)
}

/// The label file of this name. Its bytes are dropped.
fn read_label_file<A: Allocator + Copy, F: Files>(
    alloc: A,
    name: &str,
    files: &mut F,
) -> Result<LabelFile<A>, Fault>
    ensures parts { IfOk result
        (λ parts. IfSome (F.bytes files.old name.now) (λ held. IsLabelFile held parts)) }
    ensures fault { IfErr result (HasLabelFault (F.bytes files.old)
        (HasFailed (F.failures files.old) (F.failures files.new)) name.now) }
    ensures counted { OnOk result (F.failures files.new ≡ F.failures files.old) }
    ensures same { (n : List ℕ) → F.bytes files.new n ≡ F.bytes files.old n }
{
    let bytes = files.read(alloc, name)?;
    Ok(read_labels(alloc, &bytes)?)
}
