//! The bytes of the parts of a file.

ghost use Rattle.std.specs.Prelude.{◌≡◌, ◌<◌, ◌*◌, ◌++◌, take, drop};
ghost use Rattle.gc_label.specs.Label.{bytes_of_label};
ghost use Rattle.gc_half.specs.Garbling.{decode_bits_of};
ghost use Rattle.gc_file.specs.Number.{number_bytes as bytes_of_number};
ghost use Rattle.gc_file.specs.DecodeBits.{bits_number};
ghost use Rattle.gc_file.specs.GarbledFile as files;
ghost use Rattle.gc_file.specs.LabelFile.{label_magic};

use crate::number::number_bytes;
use crate::parts::Version;
use crate::sizes::{HEADER, LABEL_HEADER};
use arrayvec::ArrayVec;
use gc_half::Garbling;
use gc_label::Label;
use std::alloc::Allocator;

/// The header of a garbled file with this digest and these counts.
pub(crate) fn header(
    version: Version,
    digest: [u8; 32],
    rows: u32,
    outputs: u32,
) -> ArrayVec<u8, HEADER>
    ensures { result.items ≡ files.magic version ++ digest
        ++ bytes_of_number rows ++ bytes_of_number outputs }
{
    let mut header = ArrayVec::new();
    header.try_extend_from_slice(&version.magic()).unwrap();
    header.try_extend_from_slice(&digest).unwrap();
    header.try_extend_from_slice(&number_bytes(rows)).unwrap();
    header
        .try_extend_from_slice(&number_bytes(outputs))
        .unwrap();
    header
}

/// The header of the label file of an input value with this index and width.
pub fn label_header(index: u32, width: u32) -> ArrayVec<u8, LABEL_HEADER>
    ensures { result.items ≡ label_magic ++ bytes_of_number index ++ bytes_of_number width }
{
    let mut header = ArrayVec::new();
    header.try_extend_from_slice(b"HLABELS1").unwrap();
    header.try_extend_from_slice(&number_bytes(index)).unwrap();
    header.try_extend_from_slice(&number_bytes(width)).unwrap();
    header
}

/// The bytes of two labels.
#[inline]
pub(crate) fn pair_bytes(first: Label, second: Label) -> [u8; 32]
    ensures { result ≡ bytes_of_label first ++ bytes_of_label second }
{
    let mut bytes = [0; 32];
    let (front, back) = bytes.split_at_mut(16);
    front.copy_from_slice(&first.to_bytes());
    back.copy_from_slice(&second.to_bytes());
    bytes
}

/// Byte k of the decode bits: bits 8k to 8k + 7, or to the last one, the first of them lowest.
pub(crate) fn decode_byte<A: Allocator>(garbling: &Garbling<A>, k: u32) -> u8
    requires { 8 * k < garbling.now.outputs }
    ensures { result ≡ bits_number (take 8 (drop (8 * k) (decode_bits_of garbling.now))) }
{
    let outputs = garbling.outputs();
    let first = 8 * k;
    let count = 8.min(outputs - first);
    let mut byte = 0;
    for i in (0..count).rev() {
        byte = 2 * byte + u8::from(garbling.decode_bit(first + i));
    }
    byte
}
