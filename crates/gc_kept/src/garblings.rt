//! Lists of garblings.

ghost use Rattle.std.specs.Prelude.{◌≡◌, ◌+◌, ◌≤◌, ◌++◌, length, map, flat_map, take, drop, IfOk, IfErr, OnOk, OnErr};
ghost use Rattle.sha2.specs.Sha256.{sha256};
ghost use Rattle.gc_kept.specs.Files.{HasRoomFault, IsFileAt};
ghost use Rattle.gc_kept.specs.Garbling.{HasFiles};
ghost use Rattle.gc_kept.specs.Garblings.{AreAllGarbledAt, AreFromZero, HasAllGarbledFault, HaveDigests, HaveNoFiles, body_of, files_of, with_trailer};

use crate::fault::KeptFault;
use crate::garbling::KeptGarbling;
use gc_file::{MemSink, Trailer, Version, write_garbled_file};
use gc_lanes::{SIDE_BY_SIDE, digest_eight};
use std::alloc::Global;

/// Writes the garbled file of each garbling, as [`KeptGarbling::write`] does, one after another to the front of a
/// buffer. The trailers of up to eight files that follow one another are digested side by side. It refuses a list with
/// a garbling whose AND gates aren't numbered from 0 on (60), then one with a garbling of a circuit that had no digest
/// (68), then a buffer without room for all files (61). After a fault the buffer is as it was.
pub fn write_many(
    alloc: Global,
    garblings: &[&KeptGarbling],
    version: Version,
    files: &mut [u8],
) -> Result<(), KeptFault>
    ensures ok { OnOk result
        (AreAllGarbledAt (map (λ g. g.now) garblings.now) version files.old files.new) }
    ensures fault { IfErr result
        (HasAllGarbledFault (map (λ g. g.now) garblings.now) version (length files.old)) }
    ensures unwritten { OnErr result (files.new ≡ files.old) }
{
    have_files(garblings)?;
    has_files_room(garblings, version, files)?;
    let bodies = bodies_of(alloc, garblings, version)?;
    let bodies = slices_of(alloc, &bodies)?;
    let trailers = trailers_of(alloc, &bodies)?;
    put_files(&bodies, &trailers, files);
    Ok(())
}

/// Checks that each garbling has garbled files: that the AND gates of all are numbered from 0 on, and then that the
/// circuits of all had their digests.
fn have_files(garblings: &[&KeptGarbling]) -> Result<(), KeptFault>
    ensures numbers { OnOk result (AreFromZero (map (λ g. g.now) garblings.now)) }
    ensures digests { OnOk result (HaveDigests (map (λ g. g.now) garblings.now)) }
    ensures fault { IfErr result (HaveNoFiles (map (λ g. g.now) garblings.now)) }
{
    if !garblings.iter().all(|garbling| garbling.is_from_zero()) {
        return Err(KeptFault::BadArgument);
    }
    if !garblings.iter().all(|garbling| garbling.has_digest()) {
        return Err(KeptFault::NoDigest);
    }
    Ok(())
}

/// Checks that a buffer has room for the garbled files of these garblings.
fn has_files_room(
    garblings: &[&KeptGarbling],
    version: Version,
    buffer: &[u8],
) -> Result<(), KeptFault>
    ensures ok { OnOk result
        (length (files_of version (map (λ g. g.now) garblings.now)) ≤ length buffer.now) }
    ensures fault { IfErr result (HasRoomFault
        (length (files_of version (map (λ g. g.now) garblings.now))) (length buffer.now)) }
{
    let mut room = buffer.len();
    for garbling in garblings {
        let size = garbling.file_size(version);
        if room < size {
            return Err(KeptFault::SmallBuffer);
        }
        room -= size;
    }
    Ok(())
}

impl KeptGarbling {
    /// The bytes of the garbled file of a version before its trailer. The caller ensures that there is one.
    fn body(&self, alloc: Global, version: Version) -> Result<Vec<u8, Global>, KeptFault>
        requires { HasFiles self.now }
        ensures ok { IfOk result (λ bytes. bytes.items ≡ body_of version self.now) }
        ensures fault { IfErr result (λ fault. fault ≡ KeptFault.Memory) }
    {
        self.law_garbled();
        let digest = self.circuit.digest()?;
        let source = self.source(digest, version);
        let mut sink = MemSink::new(alloc, None);
        match write_garbled_file(&mut sink, &source, Trailer::Omitted) {
            Ok(_) => Ok(sink.into_bytes()),
            Err(_) => Err(KeptFault::Memory),
        }
    }
}

/// The bytes of each garbled file before its trailer. The caller ensures that there is one of each garbling.
fn bodies_of(
    alloc: Global,
    garblings: &[&KeptGarbling],
    version: Version,
) -> Result<Vec<Vec<u8, Global>, Global>, KeptFault>
    requires numbers { AreFromZero (map (λ g. g.now) garblings.now) }
    requires digests { HaveDigests (map (λ g. g.now) garblings.now) }
    ensures ok { IfOk result (λ bodies.
        map (λ b. b.items) bodies.items ≡ map (body_of version) (map (λ g. g.now) garblings.now)) }
    ensures fault { IfErr result (λ fault. fault ≡ KeptFault.Memory) }
{
    let mut bodies = Vec::with_capacity(alloc, garblings.len())?;
    for garbling in garblings {
        bodies.push(garbling.body(alloc, version)?)?;
    }
    Ok(bodies)
}

/// The bytes of each vector.
fn slices_of(alloc: Global, vectors: &[Vec<u8, Global>]) -> Result<Vec<&[u8], Global>, KeptFault>
    ensures ok { IfOk result (λ slices.
        map (λ s. s.now) slices.items ≡ map (λ v. v.items) vectors.now) }
    ensures fault { IfErr result (λ fault. fault ≡ KeptFault.Memory) }
{
    let mut slices = Vec::with_capacity(alloc, vectors.len())?;
    for vector in vectors {
        slices.push(vector.as_slice())?;
    }
    Ok(slices)
}

/// The digest of each of these, eight at a time side by side.
fn trailers_of(alloc: Global, bodies: &[&[u8]]) -> Result<Vec<[u8; 32], Global>, KeptFault>
    ensures ok { IfOk result (λ trailers.
        trailers.items ≡ map (λ b. sha256 b.now) bodies.now) }
    ensures fault { IfErr result (λ fault. fault ≡ KeptFault.Memory) }
{
    let mut trailers = Vec::with_capacity(alloc, bodies.len())?;
    let mut next = 0;
    while next < bodies.len() {
        let end = (next + SIDE_BY_SIDE).min(bodies.len());
        let digests = digest_eight(&bodies[next..end]);
        trailers.extend_from_slice(&digests[..end - next])?;
        next = end;
    }
    Ok(trailers)
}

/// Writes these bytes, each with its trailer, one after another to the front of a buffer, whose end stays as it is. The
/// caller ensures that there is room.
fn put_files(bodies: &[&[u8]], trailers: &[[u8; 32]], files: &mut [u8])
    requires trailers { trailers.now ≡ map (λ b. sha256 b.now) bodies.now }
    requires room { length (flat_map with_trailer (map (λ b. b.now) bodies.now))
        ≤ length files.old }
    ensures { IsFileAt (flat_map with_trailer (map (λ b. b.now) bodies.now)) files.old files.new }
{
    let mut place = 0;
    for i in 0..bodies.len() {
        let trailer_place = put(bodies[i], place, files);
        place = put(&trailers[i], trailer_place, files);
    }
}

/// Writes a piece to its place in a buffer, and returns the place after it. The caller ensures that there is room.
fn put(piece: &[u8], place: usize, buffer: &mut [u8]) -> usize
    requires { place + length piece.now ≤ length buffer.old }
    ensures bytes { buffer.new
        ≡ take place buffer.old ++ piece.now ++ drop (place + length piece.now) buffer.old }
    ensures count { length buffer.new ≡ length buffer.old }
    ensures end { result ≡ place + length piece.now }
{
    let end = place + piece.len();
    buffer[place..end].copy_from_slice(piece);
    end
}
