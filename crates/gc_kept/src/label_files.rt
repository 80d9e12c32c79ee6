//! Label files that follow one another.

ghost use Rattle.std.specs.Prelude.{◌≡◌, ◌↔◌, IfOk, IfErr, IsTrue, sum};
ghost use Rattle.gc_kept.specs.LabelFiles.{AreJoinedFiles, HasJoinedFilesFault};

use crate::fault::KeptFault;
use gc_file::{LabelFile, read_labels};
use std::alloc::Global;

/// Whether these lengths add up to a total.
fn add_up(lengths: &[usize], total: usize) -> bool
    ensures { IsTrue result ↔ (sum lengths.now ≡ total) }
{
    let mut left = total;
    for length in lengths {
        if left < *length {
            return false;
        }
        left -= *length;
    }
    left == 0
}

/// Reads label files that follow one another, by the number of bytes of each. It first refuses numbers that don't add
/// up to that of all bytes (66).
pub(crate) fn read_label_files(
    alloc: Global,
    bytes: &[u8],
    lengths: &[usize],
) -> Result<Vec<LabelFile<Global>, Global>, KeptFault>
    ensures ok { IfOk result (λ files. AreJoinedFiles bytes.now lengths.now files.items) }
    ensures fault { IfErr result (HasJoinedFilesFault bytes.now lengths.now) }
{
    if !add_up(lengths, bytes.len()) {
        return Err(KeptFault::WrongSize);
    }
    let mut files = Vec::with_capacity(alloc, lengths.len())?;
    let mut rest = bytes;
    for length in lengths {
        let (file, others) = rest.split_at(*length);
        files.push(read_labels(alloc, file)?)?;
        rest = others;
    }
    Ok(files)
}
