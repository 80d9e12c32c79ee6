//! The part of a garbled file after its header.

ghost use Rattle.std.specs.Prelude.{◌≡◌, ◌≢◌, ◌<◌, ◌≤◌, ◌+◌, ◌-◌, ◌*◌, ◌^◌, ◌++◌, ℕ, List, [], length, map, take, drop, slice_index, IfOk, IfErr, IfSome, OnOk, IsTrue, ◌↔◌};
ghost use Rattle.std.specs.List.{range_with_len};
ghost use Rattle.gc_file.specs.declared.parts.Version.{Version};
ghost use Rattle.gc_file.specs.DecodeBits.{bytes_for, bit_in, IsSpare};
ghost use Rattle.gc_file.specs.FileFault.{LastingFault, IsHeaderInOrder, IsSound};
ghost use Rattle.gc_file.specs.Body.{IsCutUp, IsGiven, IsHashed};
ghost use Rattle.sha2.specs.Sha256.{sha256};
ghost use Rattle.gc_file.specs.Reading.{IsRead, before_trailer};

use crate::fault::FileFault;
use crate::garbled::Garbled;
use crate::header::{DIGEST, HeaderCounts};
use crate::pairs::Pairs;
use crate::parts::EntryPair;
use crate::piece::{append, cut, make_room};
use crate::sizes::{HEADER, PAIR, TRAILER};
use arrayvec::ArrayVec;
use gc_half::RowPair;
use gc_lanes::LongSha256;
use sha2::Digest;
use std::alloc::Allocator;
use std::marker::Model;

/// A garbled file whose header is there, as far as its bytes have come.
#[derive(Drop)]
pub(crate) struct Body<A: Allocator> {
    header: ArrayVec<u8, HEADER>,
    rows: Pairs<RowPair, A>,
    decode_bytes: Vec<u8, A>,
    entries: Pairs<EntryPair, A>,
    trailer: ArrayVec<u8, TRAILER>,
    // Holds the bytes before the trailer, until the trailer is whole.
    hasher: LongSha256,
}

impl<A: Allocator> Model for Body<A> {
    ghost use Rattle.std.specs.Prelude.{ℕ, List, ◌++◌};
    ghost use Rattle.gc_file.specs.Body.{IsBody};

    ghost Value = { List ℕ };

    ghost view = { λ b.
        b.header.items ++ b.rows ++ b.decode_bytes.items ++ b.entries ++ b.trailer.items };

    ghost invariant = { λ b.
        IsBody b.header.items b.rows b.decode_bytes.items b.entries b.trailer.items b.hasher };
}

/// Whether the last of the decode bytes has a bit set that stands for no output wire.
fn has_spare_bit(decode_bytes: &[u8], outputs: usize) -> bool
    requires { length decode_bytes.now ≡ bytes_for outputs }
    ensures { IsTrue result ↔ IsSpare outputs decode_bytes.now }
{
    outputs % 8 != 0 && decode_bytes[decode_bytes.len() - 1] >> (outputs % 8) != 0
}

/// The digest in a header.
fn digest_in(header: &[u8]) -> [u8; 32]
    requires { length header.now ≡ HEADER }
    ensures digest { result ≡ take 32 (drop 8 header.now) }
    ensures bytes { (i : ℕ) → slice_index header.now i < 256 }
{
    let mut digest = [0; 32];
    digest.copy_from_slice(&header[DIGEST..DIGEST + 32]);
    digest
}

/// The first `count` bits of these bytes.
fn unpacked<A: Allocator>(alloc: A, bytes: &[u8], count: usize) -> Result<Vec<bool, A>, FileFault>
    requires { bytes_for count ≤ length bytes.now }
    ensures bits { IfOk result (λ v. v.items ≡ map (bit_in bytes.now) (range_with_len 0 count)) }
    ensures bytes { (i : ℕ) → slice_index bytes.now i < 256 }
    ensures memory { IfErr result (λ e. e ≡ FileFault.Memory) }
{
    let mut bits = Vec::with_capacity(alloc, count)?;
    for i in 0..count {
        bits.push(bytes[i / 8] >> (i % 8) & 1 == 1)?;
    }
    Ok(bits)
}

/// A piece, cut into the bytes of each part and what is left.
#[derive(Clone, Copy)]
struct Cuts<'p> {
    rows: &'p [u8],
    decode_bytes: &'p [u8],
    entries: &'p [u8],
    trailer: &'p [u8],
    rest: &'p [u8],
}

/// How many bytes each part lacks.
#[derive(Clone, Copy)]
struct Lacking {
    rows: usize,
    decode_bytes: usize,
    entries: usize,
    trailer: usize,
}

/// Cuts a piece into what each part lacks.
fn cut_up(piece: &[u8], lacking: Lacking) -> Cuts<'_>
    ensures { IsCutUp lacking.rows lacking.decode_bytes lacking.entries lacking.trailer
        piece.now result.rows.now
        result.decode_bytes.now result.entries.now result.trailer.now result.rest.now }
{
    let (rows, rest) = cut(piece, lacking.rows);
    let (decode_bytes, rest) = cut(rest, lacking.decode_bytes);
    let (entries, rest) = cut(rest, lacking.entries);
    let (trailer, rest) = cut(rest, lacking.trailer);
    Cuts {
        rows,
        decode_bytes,
        entries,
        trailer,
        rest,
    }
}

/// Adds decode bytes, and checks the last one once it is there.
fn add_decode_bytes<A: Allocator>(
    decode_bytes: &mut Vec<u8, A>,
    bytes: &[u8],
    counts: HeaderCounts,
) -> Result<(), FileFault>
    requires { counts.decode_bytes ≡ bytes_for counts.outputs }
    ensures ok { OnOk result (decode_bytes.new.items ≡ decode_bytes.old.items ++ bytes.now) }
    ensures checked { OnOk result
        (length (decode_bytes.old.items ++ bytes.now) ≡ counts.decode_bytes
        → IsSpare counts.outputs (decode_bytes.old.items ++ bytes.now) → ⊥) }
    ensures err { IfErr result (λ e. e ≢ FileFault.Memory → (e ≡ FileFault.SpareBits)
        × (length (decode_bytes.old.items ++ bytes.now) ≡ counts.decode_bytes)
        × IsSpare counts.outputs (decode_bytes.old.items ++ bytes.now)) }
{
    make_room(decode_bytes, bytes.len(), counts.decode_bytes)?;
    decode_bytes.extend_from_slice(bytes)?;
    if decode_bytes.len() != counts.decode_bytes {
        return Ok(());
    }
    if has_spare_bit(decode_bytes, counts.outputs) {
        return Err(FileFault::SpareBits);
    }
    Ok(())
}

/// Checks a whole trailer.
fn check_trailer(trailer: &[u8], digest: &[u8; 32]) -> Result<(), FileFault>
    ensures right { OnOk result (trailer.now ≡ digest.now) }
    ensures wrong { IfErr result (λ e.
        (e ≡ FileFault.BadTrailer) × (trailer.now ≢ digest.now)) }
{
    if trailer == digest.as_slice() {
        Ok(())
    } else {
        Err(FileFault::BadTrailer)
    }
}

/// Adds bytes of the trailer, and checks it once it is whole.
fn add_trailer(
    hasher: &mut LongSha256,
    trailer: &mut ArrayVec<u8, TRAILER>,
    bytes: &[u8],
) -> Result<(), FileFault>
    requires { length trailer.old.items + length bytes.now ≤ 32 }
    ensures ok { OnOk result (trailer.new.items ≡ trailer.old.items ++ bytes.now) }
    ensures hashed { OnOk result ((message : List ℕ) → IsHashed message trailer.old.items hasher.old
        → IsHashed message (trailer.old.items ++ bytes.now) hasher.new) }
    ensures err { IfErr result (λ e. (e ≡ FileFault.BadTrailer)
        × (length (trailer.old.items ++ bytes.now) ≡ 32)
        × ((message : List ℕ) → IsHashed message trailer.old.items hasher.old
        → trailer.old.items ++ bytes.now ≡ sha256 message → ⊥)) }
{
    if bytes.is_empty() {
        return Ok(());
    }
    append(trailer, bytes);
    if !trailer.is_full() {
        return Ok(());
    }
    let digest = hasher.finalize_reset();
    check_trailer(trailer.as_slice(), &digest)
}

/// Adds the last bytes of a file to the trailer, and checks it against the digest.
fn add_last(
    trailer: &mut ArrayVec<u8, TRAILER>,
    bytes: &[u8],
    digest: &[u8; 32],
) -> Result<(), FileFault>
    requires { length trailer.old.items + length bytes.now ≡ 32 }
    ensures ok { OnOk result (trailer.new.items ≡ trailer.old.items ++ bytes.now) }
    ensures right { OnOk result (trailer.old.items ++ bytes.now ≡ digest.now) }
    ensures err { IfErr result (λ e.
        (e ≡ FileFault.BadTrailer) × (trailer.old.items ++ bytes.now ≢ digest.now)) }
{
    append(trailer, bytes);
    check_trailer(trailer.as_slice(), digest)
}

/// Adds a piece to the message before the trailer and to the trailer, which is checked once it is whole. Where the
/// piece ends the file, a digest that is given takes the hasher's place.
fn add_hashed(
    hasher: &mut LongSha256,
    trailer: &mut ArrayVec<u8, TRAILER>,
    cuts: &Cuts<'_>,
    digest: Option<&[u8; 32]>,
) -> Result<(), FileFault>
    requires room { length trailer.old.items + length cuts.now.trailer.now ≤ 32 }
    requires order { 0 < length trailer.old.items
        → length (cuts.now.rows.now ++ cuts.now.decode_bytes.now ++ cuts.now.entries.now) ≡ 0 }
    ensures ok { OnOk result (trailer.new.items ≡ trailer.old.items ++ cuts.now.trailer.now) }
    ensures hashed { OnOk result ((m n : List ℕ) → IsHashed m trailer.old.items hasher.old
        → n ≡ m ++ cuts.now.rows.now ++ cuts.now.decode_bytes.now ++ cuts.now.entries.now
        → IsGiven digest.entry n (trailer.old.items ++ cuts.now.trailer.now) cuts.now.rest.now
        → IsHashed n (trailer.old.items ++ cuts.now.trailer.now) hasher.new) }
    ensures err { IfErr result (λ e. (e ≡ FileFault.BadTrailer)
        × (length (trailer.old.items ++ cuts.now.trailer.now) ≡ 32)
        × ((m n : List ℕ) → IsHashed m trailer.old.items hasher.old
        → n ≡ m ++ cuts.now.rows.now ++ cuts.now.decode_bytes.now ++ cuts.now.entries.now
        → IsGiven digest.entry n (trailer.old.items ++ cuts.now.trailer.now) cuts.now.rest.now
        → trailer.old.items ++ cuts.now.trailer.now ≡ sha256 n → ⊥)) }
{
    let ends = cuts.rest.is_empty() && trailer.len() + cuts.trailer.len() == TRAILER;
    match digest {
        Some(digest) if ends => add_last(trailer, cuts.trailer, digest),
        _ => {
            hasher.update(cuts.rows);
            hasher.update(cuts.decode_bytes);
            hasher.update(cuts.entries);
            add_trailer(hasher, trailer, cuts.trailer)
        }
    }
}

impl<A: Allocator + Copy> Body<A> {
    /// What follows after this header, which is in order.
    pub(crate) fn new(alloc: A, header: ArrayVec<u8, HEADER>) -> Body<A>
        requires whole { length header.items ≡ HEADER }
        requires in_order { (v : Version) × IsHeaderInOrder v header.items }
        ensures { result ≡ header.items }
    {
        let mut hasher = LongSha256::new();
        hasher.update(header.as_slice());
        Body {
            header,
            rows: Pairs::new(alloc),
            decode_bytes: Vec::new(alloc),
            entries: Pairs::new(alloc),
            trailer: ArrayVec::new(),
            hasher,
        }
    }

    /// With these bytes more, or the fault that comes with them. A digest that is given is that of all bytes but the
    /// last 32: where the bytes are a whole file, it takes the place of the hasher's.
    pub(crate) fn with(self, piece: &[u8], digest: Option<&[u8; 32]>) -> Result<Body<A>, FileFault>
        requires { IfSome digest (λ given.
            given.now ≡ sha256 (before_trailer (self ++ piece.now))) }
        ensures ok { IfOk result (λ b. b ≡ self ++ piece.now) }
        ensures sound { IfOk result IsSound }
        ensures err { IfErr result (λ e.
            e ≢ FileFault.Memory → LastingFault (self ++ piece.now) e) }
    {
        let Body {
            header,
            mut rows,
            mut decode_bytes,
            mut entries,
            mut trailer,
            mut hasher,
        } = self;
        let counts = HeaderCounts::of(header.as_slice());
        let lacking = Lacking {
            rows: PAIR * counts.rows - rows.len(),
            decode_bytes: counts.decode_bytes - decode_bytes.len(),
            entries: PAIR * counts.entries - entries.len(),
            trailer: TRAILER - trailer.len(),
        };
        let cuts = cut_up(piece, lacking);
        rows.add(cuts.rows, counts.rows)?;
        add_decode_bytes(&mut decode_bytes, cuts.decode_bytes, counts)?;
        entries.add(cuts.entries, counts.entries)?;
        add_hashed(&mut hasher, &mut trailer, &cuts, digest)?;
        if !cuts.rest.is_empty() {
            return Err(FileFault::Trailing);
        }
        Ok(Body {
            header,
            rows,
            decode_bytes,
            entries,
            trailer,
            hasher,
        })
    }

    /// The file, where it is whole.
    pub(crate) fn end(self, alloc: A) -> Result<Garbled<A>, FileFault>
        ensures { IsRead self result }
    {
        let Body {
            header,
            rows,
            decode_bytes,
            entries,
            trailer,
            ..
        } = self;
        if !trailer.is_full() {
            return Err(FileFault::Truncated);
        }
        let header = header.as_slice();
        let counts = HeaderCounts::of(header);
        let digest = digest_in(header);
        let decode_bytes = decode_bytes.as_slice();
        let decode_bits = unpacked(alloc, decode_bytes, counts.outputs)?;
        Ok(Garbled {
            version: counts.version,
            digest,
            rows: rows.into_pairs(),
            decode_bits,
            entries: entries.into_pairs(),
        })
    }
}
