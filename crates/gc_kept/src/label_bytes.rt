//! Labels and row pairs as bytes that are in no file.

ghost use Rattle.std.specs.Prelude.{◌≡◌, ◌+◌, ◌*◌, ◌++◌, ◌≤◌, length, flat_map, map, take};
ghost use Rattle.gc_label.specs.Label.{bytes_of_label, ◌⊕◌};
ghost use Rattle.gc_file.specs.GarbledFile.{row_bytes};
ghost use Rattle.gc_kept.specs.Files.{IsFileAt};

use gc_file::sizes::{LABEL, PAIR};
use gc_half::RowPair;
use gc_label::Label;

/// Writes a label to its place among labels. The caller ensures that there is such a place.
#[inline]
fn put_label(label: Label, place: usize, bytes: &mut [u8])
    requires { 16 * place + 16 ≤ length bytes.old }
    ensures bytes { take (16 * place + 16) bytes.new
        ≡ take (16 * place) bytes.old ++ bytes_of_label label }
    ensures count { length bytes.new ≡ length bytes.old }
{
    let at = LABEL * place;
    bytes[at..at + LABEL].copy_from_slice(&label.to_bytes());
}

/// Writes labels. The caller ensures that there are 16 bytes for each.
pub(crate) fn put_labels(labels: &[Label], bytes: &mut [u8])
    requires { length bytes.old ≡ 16 * length labels.now }
    ensures { bytes.new ≡ flat_map bytes_of_label labels.now }
{
    for i in 0..labels.len() {
        put_label(labels[i], i, bytes);
    }
}

/// Writes the sum of each label and a difference. The caller ensures that there are 16 bytes for each.
fn put_sums(labels: &[Label], difference: Label, bytes: &mut [u8])
    requires { length bytes.old ≡ 16 * length labels.now }
    ensures { bytes.new ≡ flat_map bytes_of_label (map (λ label. label ⊕ difference) labels.now) }
{
    for i in 0..labels.len() {
        put_label(labels[i].xor(difference), i, bytes);
    }
}

/// Writes row pairs. The caller ensures that there are 32 bytes for each.
fn put_rows(rows: &[RowPair], bytes: &mut [u8])
    requires { length bytes.old ≡ 32 * length rows.now }
    ensures { bytes.new ≡ flat_map row_bytes rows.now }
{
    for i in 0..rows.len() {
        put_label(rows[i].generator, 2 * i, bytes);
        put_label(rows[i].evaluator, 2 * i + 1, bytes);
    }
}

/// Writes labels to the front of a buffer, whose end stays as it is. The caller ensures that there is room.
pub(crate) fn write_labels(labels: &[Label], buffer: &mut [u8])
    requires { 16 * length labels.now ≤ length buffer.old }
    ensures { IsFileAt (flat_map bytes_of_label labels.now) buffer.old buffer.new }
{
    put_labels(labels, &mut buffer[..LABEL * labels.len()]);
}

/// Writes the sum of each label and a difference to the front of a buffer, whose end stays as it is. The caller ensures
/// that there is room.
pub(crate) fn write_sums(labels: &[Label], difference: Label, buffer: &mut [u8])
    requires { 16 * length labels.now ≤ length buffer.old }
    ensures { IsFileAt
        (flat_map bytes_of_label (map (λ label. label ⊕ difference) labels.now))
        buffer.old buffer.new }
{
    put_sums(labels, difference, &mut buffer[..LABEL * labels.len()]);
}

/// Writes row pairs to the front of a buffer, whose end stays as it is. The caller ensures that there is room.
pub(crate) fn write_rows(rows: &[RowPair], buffer: &mut [u8])
    requires { 32 * length rows.now ≤ length buffer.old }
    ensures { IsFileAt (flat_map row_bytes rows.now) buffer.old buffer.new }
{
    put_rows(rows, &mut buffer[..PAIR * rows.len()]);
}
