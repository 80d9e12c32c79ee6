//! Writing garbled files.

ghost use Rattle.std.specs.Prelude.{◌≡◌, ◌≤◌, ◌+◌, ◌-◌, ◌*◌, flat_map, []};
ghost use Rattle.sha2.specs.Sha256.{sha256};
ghost use Rattle.gc_netlist.specs.Canon.{canonical_text};
ghost use Rattle.gc_half.specs.Garbling.{decode_bits_of, FitsCircuit};
ghost use Rattle.gc_file.specs.Counted.{CountsFailure};
ghost use Rattle.gc_file.specs.DecodeBits.{packed};
ghost use Rattle.gc_file.specs.GarbledFile.{row_bytes, entry_bytes, body, garbled_file, parts_of};
ghost use Rattle.gc_file.specs.Honest.{honest_parts_with, version_entries, written_part};
ghost use Rattle.gc_file.specs.Writing.{Proceeds};
ghost use Rattle.gc_file.specs.Written.{IsWritten, entry_pairs_from, entry_pairs_of, front, IsSmall, parts_one, parts_two};

use crate::parts::{EntryPair, Version};
use crate::sink::Sink;
use crate::spell::{decode_byte, header, pair_bytes};
use crate::writer::{FileWriter, Observer, Unobserved, WriteFault};
use gc_circuit::Circuit;
use gc_half::{Garbling, RowPair, four_output_entries, output_entry};
use gc_label::{Label, Offset, Seed, offset};
use gc_lanes::LongSha256;
use sha2::Digest;
use std::alloc::Allocator;

/// What a garbled file is written of.
#[derive(Drop)]
pub struct GarbledSource<'a, A: Allocator, B: Allocator> {
    /// The version of the file.
    pub version: Version,
    /// The circuit.
    pub circuit: &'a Circuit<A>,
    /// Its digest, from [`Circuit::digest`].
    pub digest: &'a [u8; 32],
    /// A garbling that fits the circuit. Its AND gates are numbered from 0 on: this is not checked.
    pub garbling: &'a Garbling<B>,
    /// The offset of the garbling, for the entries of version 2.
    pub offset: Offset,
}

/// Whether a garbled file is written with its trailer.
#[derive(Clone, Copy, PartialEq, Eq, Debug)]
pub enum Trailer {
    /// The file is written to its end.
    Written,
    /// The caller adds the trailer: the SHA-256 of the bytes that are written.
    Omitted,
}

impl<O: Observer> FileWriter<O> {
    /// Writes all but the trailer.
    fn write_body<S: Sink, A: Allocator, B: Allocator>(
        &mut self,
        sink: &mut S,
        of: &GarbledSource<'_, A, B>,
    ) -> Result<(), WriteFault>
        requires digest { of.now.digest.now ≡ sha256 (canonical_text of.now.circuit.now) }
        requires fits { FitsCircuit of.now.circuit.now of.now.garbling.now }
        ensures bytes { Proceeds O.saw self.old self.new
            (S.taken sink.old) (S.taken sink.new) result
            (body (honest_parts_with of.now.version of.now.circuit.now of.now.garbling.now
            of.now.offset)) }
        ensures small { IsSmall of.now.garbling.now }
        ensures counted { CountsFailure result (S.failures sink.old) (S.failures sink.new) }
    {
        self.write_front(sink, of)?;
        self.write_version_entries(sink, of)
    }

    /// Writes the part before the entries: the header, the row pairs and the decode bits.
    fn write_front<S: Sink, A: Allocator, B: Allocator>(
        &mut self,
        sink: &mut S,
        of: &GarbledSource<'_, A, B>,
    ) -> Result<(), WriteFault>
        requires digest { of.now.digest.now ≡ sha256 (canonical_text of.now.circuit.now) }
        requires fits { FitsCircuit of.now.circuit.now of.now.garbling.now }
        ensures bytes { Proceeds O.saw self.old self.new
            (S.taken sink.old) (S.taken sink.new) result
            (front (parts_of of.now.version of.now.circuit.now of.now.garbling.now [])) }
        ensures small { IsSmall of.now.garbling.now }
        ensures counted { CountsFailure result (S.failures sink.old) (S.failures sink.new) }
    {
        let garbling = of.garbling;
        let and_gates = of.circuit.and_count();
        let header = header(of.version, *of.digest, and_gates, garbling.outputs());
        self.write(sink, header.as_slice())?;
        self.write_rows(sink, garbling.rows())?;
        self.write_decode_bits(sink, garbling)
    }

    /// Writes the row pairs.
    fn write_rows<S: Sink>(&mut self, sink: &mut S, rows: &[RowPair]) -> Result<(), WriteFault>
        ensures bytes { Proceeds O.saw self.old self.new
            (S.taken sink.old) (S.taken sink.new) result (flat_map row_bytes rows.now) }
        ensures counted { CountsFailure result (S.failures sink.old) (S.failures sink.new) }
    {
        for row in rows {
            self.write(sink, &pair_bytes(row.generator, row.evaluator))?;
        }
        Ok(())
    }

    /// Writes the decode bits, eight to a byte.
    fn write_decode_bits<S: Sink, A: Allocator>(
        &mut self,
        sink: &mut S,
        garbling: &Garbling<A>,
    ) -> Result<(), WriteFault>
        ensures bytes { Proceeds O.saw self.old self.new
            (S.taken sink.old) (S.taken sink.new) result (packed (decode_bits_of garbling.now)) }
        ensures counted { CountsFailure result (S.failures sink.old) (S.failures sink.new) }
    {
        for k in 0..garbling.outputs().div_ceil(8) {
            self.write(sink, &[decode_byte(garbling, k)])?;
        }
        Ok(())
    }

    /// Writes the entry pairs of a version, which are none in version 1.
    fn write_version_entries<S: Sink, A: Allocator, B: Allocator>(
        &mut self,
        sink: &mut S,
        of: &GarbledSource<'_, A, B>,
    ) -> Result<(), WriteFault>
        requires { FitsCircuit of.now.circuit.now of.now.garbling.now }
        ensures bytes { Proceeds O.saw self.old self.new
            (S.taken sink.old) (S.taken sink.new) result
            (flat_map entry_bytes
            (version_entries of.now.version of.now.offset of.now.garbling.now)) }
        ensures counted { CountsFailure result (S.failures sink.old) (S.failures sink.new) }
    {
        match of.version {
            Version::One => Ok(()),
            Version::Two => self.write_entries(sink, of),
        }
    }

    /// Writes the entry pair of each output wire: those of four wires at once, and the last ones by themselves.
    fn write_entries<S: Sink, A: Allocator, B: Allocator>(
        &mut self,
        sink: &mut S,
        of: &GarbledSource<'_, A, B>,
    ) -> Result<(), WriteFault>
        requires { FitsCircuit of.now.circuit.now of.now.garbling.now }
        ensures bytes { Proceeds O.saw self.old self.new
            (S.taken sink.old) (S.taken sink.new) result
            (flat_map entry_bytes (entry_pairs_of of.now.offset of.now.garbling.now)) }
        ensures counted { CountsFailure result (S.failures sink.old) (S.failures sink.new) }
    {
        let fours = of.garbling.outputs() / 4;
        self.write_fours(sink, of, fours)?;
        self.write_last_entries(sink, of, 4 * fours)
    }

    /// Writes the entry pairs of the first output wires, of as many fours of them as given.
    fn write_fours<S: Sink, A: Allocator, B: Allocator>(
        &mut self,
        sink: &mut S,
        of: &GarbledSource<'_, A, B>,
        fours: u32,
    ) -> Result<(), WriteFault>
        requires fits { FitsCircuit of.now.circuit.now of.now.garbling.now }
        requires fours { 4 * fours ≤ of.now.garbling.now.outputs }
        ensures bytes { Proceeds O.saw self.old self.new
            (S.taken sink.old) (S.taken sink.new) result
            (flat_map entry_bytes
            (entry_pairs_from of.now.offset of.now.garbling.now 0 (4 * fours))) }
        ensures counted { CountsFailure result (S.failures sink.old) (S.failures sink.new) }
    {
        of.circuit.law_lawful();
        for k in 0..fours {
            let pairs = four_entry_pairs(of.circuit, of.garbling, of.offset, 4 * k);
            self.write_pairs(sink, &pairs)?;
        }
        Ok(())
    }

    /// Writes the entry pairs of the output wires from this one on.
    fn write_last_entries<S: Sink, A: Allocator, B: Allocator>(
        &mut self,
        sink: &mut S,
        of: &GarbledSource<'_, A, B>,
        first: u32,
    ) -> Result<(), WriteFault>
        requires fits { FitsCircuit of.now.circuit.now of.now.garbling.now }
        requires first { first ≤ of.now.garbling.now.outputs }
        ensures bytes { Proceeds O.saw self.old self.new
            (S.taken sink.old) (S.taken sink.new) result
            (flat_map entry_bytes (entry_pairs_from of.now.offset of.now.garbling.now first
            (of.now.garbling.now.outputs - first))) }
        ensures counted { CountsFailure result (S.failures sink.old) (S.failures sink.new) }
    {
        for i in first..of.garbling.outputs() {
            let entry_zero = output_entry(of.circuit, of.garbling, of.offset, i, false);
            let entry_one = output_entry(of.circuit, of.garbling, of.offset, i, true);
            self.write(sink, &pair_bytes(entry_zero, entry_one))?;
        }
        Ok(())
    }

    /// Writes these entry pairs.
    fn write_pairs<S: Sink>(&mut self, sink: &mut S, pairs: &[EntryPair]) -> Result<(), WriteFault>
        ensures bytes { Proceeds O.saw self.old self.new
            (S.taken sink.old) (S.taken sink.new) result (flat_map entry_bytes pairs.now) }
        ensures counted { CountsFailure result (S.failures sink.old) (S.failures sink.new) }
    {
        for pair in pairs {
            self.write(sink, &pair_bytes(pair.entry_zero, pair.entry_one))?;
        }
        Ok(())
    }
}

/// The entry pairs of four output wires, from this one on.
fn four_entry_pairs<A: Allocator, B: Allocator>(
    circuit: &Circuit<A>,
    garbling: &Garbling<B>,
    offset: Offset,
    first: u32,
) -> [EntryPair; 4]
    requires fits { FitsCircuit circuit.now garbling.now }
    requires outputs { first + 4 ≤ garbling.now.outputs }
    ensures { result ≡ entry_pairs_from offset garbling.now first 4 }
{
    let [a, b, c, d] = four_output_entries(circuit, garbling, offset, first);
    [named(a), named(b), named(c), named(d)]
}

/// Entry 0 and entry 1, by names.
#[inline]
fn named(entries: (Label, Label)) -> EntryPair
    ensures { result ≡ record { entry_zero = entries.0; entry_one = entries.1 } }
{
    let (entry_zero, entry_one) = entries;
    EntryPair {
        entry_zero,
        entry_one,
    }
}

/// Writes a garbled file to the sink, with its trailer or without, and returns how many bytes it wrote. The caller
/// ensures that the digest is the circuit's and that the garbling fits the circuit. It doesn't allocate but what the
/// sink takes.
///
/// Where the sink fails, it has taken the first `sent` of these bytes, and no others.
pub fn write_garbled_file<S: Sink, A: Allocator, B: Allocator>(
    sink: &mut S,
    of: &GarbledSource<'_, A, B>,
    trailer: Trailer,
) -> Result<u64, WriteFault>
    requires digest { of.now.digest.now ≡ sha256 (canonical_text of.now.circuit.now) }
    requires fits { FitsCircuit of.now.circuit.now of.now.garbling.now }
    ensures file { IsWritten (written_part trailer (honest_parts_with of.now.version
        of.now.circuit.now of.now.garbling.now of.now.offset))
        result (S.taken sink.old) (S.taken sink.new) }
    ensures counted { CountsFailure result (S.failures sink.old) (S.failures sink.new) }
{
    match trailer {
        Trailer::Written => write_whole(sink, of),
        Trailer::Omitted => write_before_trailer(sink, of),
    }
}

/// Writes a garbled file with its trailer.
fn write_whole<S: Sink, A: Allocator, B: Allocator>(
    sink: &mut S,
    of: &GarbledSource<'_, A, B>,
) -> Result<u64, WriteFault>
    requires digest { of.now.digest.now ≡ sha256 (canonical_text of.now.circuit.now) }
    requires fits { FitsCircuit of.now.circuit.now of.now.garbling.now }
    ensures file { IsWritten (garbled_file (honest_parts_with of.now.version of.now.circuit.now
        of.now.garbling.now of.now.offset)) result (S.taken sink.old) (S.taken sink.new) }
    ensures counted { CountsFailure result (S.failures sink.old) (S.failures sink.new) }
{
    let mut file = FileWriter::new(LongSha256::new());
    file.write_body(sink, of)?;
    file.end_with_digest(sink)
}

/// Writes a garbled file without its trailer.
fn write_before_trailer<S: Sink, A: Allocator, B: Allocator>(
    sink: &mut S,
    of: &GarbledSource<'_, A, B>,
) -> Result<u64, WriteFault>
    requires digest { of.now.digest.now ≡ sha256 (canonical_text of.now.circuit.now) }
    requires fits { FitsCircuit of.now.circuit.now of.now.garbling.now }
    ensures body { IsWritten (body (honest_parts_with of.now.version of.now.circuit.now
        of.now.garbling.now of.now.offset)) result (S.taken sink.old) (S.taken sink.new) }
    ensures counted { CountsFailure result (S.failures sink.old) (S.failures sink.new) }
{
    let mut file = FileWriter::new(Unobserved);
    file.write_body(sink, of)?;
    file.end(sink)
}

/// Writes the garbled file of version 1 to the sink and returns how many bytes it has: the digest of the circuit's
/// canonical text, the garbling's rows and its decode bits. The caller ensures that the garbling fits the circuit. It
/// doesn't allocate but what the sink takes.
///
/// Where the sink fails, it has taken the first `sent` bytes of the file, and no others.
pub fn write_garbled<S: Sink, A: Allocator, B: Allocator>(
    sink: &mut S,
    circuit: &Circuit<A>,
    garbling: &Garbling<B>,
) -> Result<u64, WriteFault>
    requires { FitsCircuit circuit.now garbling.now }
    ensures file { IsWritten (garbled_file (parts_one circuit.now garbling.now))
        result (S.taken sink.old) (S.taken sink.new) }
    ensures counted { CountsFailure result (S.failures sink.old) (S.failures sink.new) }
{
    let source = GarbledSource {
        version: Version::One,
        circuit,
        digest: &circuit.digest(),
        garbling,
        // Version 1 has no entries, so any offset does.
        offset: offset(&Seed::from_bytes([0; 32])),
    };
    write_whole(sink, &source)
}

/// Writes the garbled file of version 2, as [`write_garbled`] does that of version 1. After the decode bits it has an
/// entry pair for each output wire, by which its labels are recognised. The seed is that of the garbling.
pub fn write_garbled2<S: Sink, A: Allocator, B: Allocator>(
    sink: &mut S,
    circuit: &Circuit<A>,
    garbling: &Garbling<B>,
    seed: &Seed,
) -> Result<u64, WriteFault>
    requires { FitsCircuit circuit.now garbling.now }
    ensures file { IsWritten (garbled_file (parts_two circuit.now garbling.now seed.now))
        result (S.taken sink.old) (S.taken sink.new) }
    ensures counted { CountsFailure result (S.failures sink.old) (S.failures sink.new) }
{
    let source = GarbledSource {
        version: Version::Two,
        circuit,
        digest: &circuit.digest(),
        garbling,
        offset: offset(seed),
    };
    write_whole(sink, &source)
}
