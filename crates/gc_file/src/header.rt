//! The header of a garbled file.

ghost use Rattle.std.specs.Prelude.{◌≡◌, ◌↔◌, ◌<◌, ◌≤◌, ◌+◌, IsTrue, MatchBool, MatchOption, MatchResult, length};
ghost use Rattle.gc_file.specs.Number as numbers;
ghost use Rattle.gc_file.specs.DecodeBits.{bytes_for};
ghost use Rattle.gc_file.specs.GarbledFile as files;
ghost use Rattle.gc_file.specs.GarbledFile.{entry_count};
ghost use Rattle.gc_file.specs.declared.parts.Version.{Version};
ghost use Rattle.gc_file.specs.Body.{version_of_bytes};
ghost use Rattle.gc_file.specs.FileFault.{MatchesMagic, row_count, output_count, IsHeaderInOrder, LastingFault};

use crate::fault::FileFault;
use crate::number::u32_at;
use crate::parts::Version;
use crate::piece::cut;
use crate::sizes::HEADER;
use gc_netlist::{MAX_GATES, MAX_WIRES};

/// The place of the digest in the header.
pub(crate) const DIGEST: usize = 8;

/// The place of the number of row pairs in the header.
const ROWS: usize = 40;

/// The place of the number of output wires in the header.
const OUTPUTS: usize = 44;

/// The place of the version's digit in the magic.
const VERSION: usize = 7;

/// Whether the bytes begin with the magic, or are a beginning of it.
pub(crate) fn is_begun(bytes: &[u8], magic: [u8; 8]) -> bool
    ensures { IsTrue result ↔ MatchesMagic magic bytes.now }
{
    let (first, _) = cut(bytes, magic.len());
    first == &magic[..first.len()]
}

/// Whether the count at this place, where its four bytes are there, is within the limit.
pub(crate) fn count_fits(bytes: &[u8], place: usize, limit: u32) -> bool
    requires { place < 64 }
    ensures { MatchBool result
        (place + 4 ≤ length bytes.now → numbers.u32_at place bytes.now ≤ limit)
        ((place + 4 ≤ length bytes.now) × (limit < numbers.u32_at place bytes.now)) }
{
    bytes.len() < place + 4 || u32_at(place, bytes) <= limit
}

/// The version whose magic the bytes begin with, or are a beginning of.
fn begun_version(header: &[u8]) -> Option<Version>
    ensures { MatchOption result ((v : Version) → MatchesMagic (files.magic v) header.now → ⊥)
        (λ v. MatchesMagic (files.magic v) header.now) }
{
    if is_begun(header, Version::One.magic()) {
        Some(Version::One)
    } else if is_begun(header, Version::Two.magic()) {
        Some(Version::Two)
    } else {
        None
    }
}

/// Checks a beginning of a header as far as it goes.
pub(crate) fn check_header(header: &[u8]) -> Result<(), FileFault>
    requires { length header.now ≤ HEADER }
    ensures { MatchResult result (λ _. (v : Version) × IsHeaderInOrder v header.now)
        (LastingFault header.now) }
{
    let Some(_) = begun_version(header) else {
        return Err(FileFault::BadMagic);
    };
    if !count_fits(header, ROWS, MAX_GATES) {
        return Err(FileFault::CountTooLarge);
    }
    if !count_fits(header, OUTPUTS, MAX_WIRES) {
        return Err(FileFault::CountTooLarge);
    }
    Ok(())
}

/// What a whole header says of the bytes that follow.
#[derive(Clone, Copy)]
pub(crate) struct HeaderCounts {
    /// The version of the file.
    pub(crate) version: Version,
    /// How many row pairs there are.
    pub(crate) rows: usize,
    /// How many output wires there are.
    pub(crate) outputs: usize,
    /// How many decode bytes there are.
    pub(crate) decode_bytes: usize,
    /// How many entry pairs there are.
    pub(crate) entries: usize,
}

impl HeaderCounts {
    /// The counts of a header.
    #[tactic(auto, unfolding(crate::specs::Body::version_of_bytes))]
    pub(crate) fn of(header: &[u8]) -> HeaderCounts
        requires { length header.now ≡ HEADER }
        ensures version { result.version ≡ version_of_bytes header.now }
        ensures rows { result.rows ≡ row_count header.now }
        ensures outputs { result.outputs ≡ output_count header.now }
        ensures decode_bytes { result.decode_bytes ≡ bytes_for (output_count header.now) }
        ensures entries { result.entries
            ≡ entry_count (version_of_bytes header.now) (output_count header.now) }
    {
        let version = if header[VERSION] == b'2' {
            Version::Two
        } else {
            Version::One
        };
        let outputs = u32_at(OUTPUTS, header);
        HeaderCounts {
            version,
            rows: u32_at(ROWS, header) as usize,
            outputs: outputs as usize,
            decode_bytes: outputs.div_ceil(8) as usize,
            entries: version.entry_count(outputs) as usize,
        }
    }
}
