//! Writing files to the buffers of callers.

ghost use Rattle.std.specs.Prelude.{◌≡◌, length, IfOk, IfErr, OnErr};
ghost use Rattle.gc_netlist.specs.Canon.{canonical_text};
ghost use Rattle.gc_file.specs.Honest.{IsFileSize};
ghost use Rattle.gc_kept.specs.Files.{IsWholeFileAt, LacksRoom, HasWriteFault, IsGarbledAt, HasGarbledWriteFault, file_of};

use crate::circuit::KeptCircuit;
use crate::fault::KeptFault;
use crate::garbling::KeptGarbling;
use crate::room::has_file_room;
use gc_file::sizes::garbled_size;
use gc_file::{GarbledSource, MemSink, Trailer, Version, write_garbled_file};
use std::alloc::Global;

/// Copies a file to a buffer, whose end stays as it is, and returns the number of its bytes. Where the buffer is too
/// small it stays as it is.
fn copy_file(file: &[u8], buffer: &mut [u8]) -> Result<usize, KeptFault>
    ensures ok { IfOk result (IsWholeFileAt file.now buffer.old buffer.new) }
    ensures fault { IfErr result (LacksRoom (length file.now) (length buffer.old)) }
    ensures unwritten { OnErr result (buffer.new ≡ buffer.old) }
{
    has_file_room(file.len(), buffer)?;
    buffer[..file.len()].copy_from_slice(file);
    Ok(file.len())
}

impl KeptCircuit {
    /// Writes the canonical text of the circuit, and returns the number of its bytes. It refuses a buffer that is too
    /// small (61).
    pub fn write_text(&self, alloc: Global, buffer: &mut [u8]) -> Result<usize, KeptFault>
        ensures ok { IfOk result
            (IsWholeFileAt (canonical_text self.now.netlist) buffer.old buffer.new) }
        ensures fault { IfErr result
            (HasWriteFault (canonical_text self.now.netlist) (length buffer.old)) }
        ensures unwritten { OnErr result (buffer.new ≡ buffer.old) }
    {
        match self.circuit().canon(alloc) {
            Ok(text) => copy_file(&text, buffer),
            Err(_) => Err(KeptFault::Memory),
        }
    }

    /// How many bytes the garbled file of a version has, for the circuit's garbling under any seed.
    pub fn garbled_size(&self, version: Version) -> u64
        ensures { IsFileSize version self.now.netlist result }
    {
        garbled_size(self.circuit(), version)
    }
}

impl KeptGarbling {
    /// Writes the garbled file of a version, and returns the number of its bytes. It refuses a garbling whose AND gates
    /// aren't numbered from 0 on (60), one of a circuit that had no digest (68), and a buffer that is too small (61):
    /// then no file is made.
    pub fn write(
        &self,
        alloc: Global,
        version: Version,
        buffer: &mut [u8],
    ) -> Result<usize, KeptFault>
        ensures ok { IfOk result (IsGarbledAt self.now version buffer.old buffer.new) }
        ensures fault { IfErr result (HasGarbledWriteFault self.now version (length buffer.old)) }
        ensures unwritten { OnErr result (buffer.new ≡ buffer.old) }
    {
        self.law_garbled();
        let digest = self.file_digest()?;
        let source = self.source(digest, version);
        has_file_room(self.file_size(version), buffer)?;
        let mut sink = MemSink::new(alloc, None);
        match write_garbled_file(&mut sink, &source, Trailer::Written) {
            Ok(_) => copy_file(sink.bytes(), buffer),
            Err(_) => Err(KeptFault::Memory),
        }
    }

    /// How many bytes the garbled file of a version has.
    pub(crate) fn file_size(&self, version: Version) -> usize
        ensures { result ≡ length (file_of self.now version) }
    {
        self.law_garbled();
        self.circuit().garbled_size(version) as usize
    }

    /// What the garbled file of a version is written from. The caller gives the circuit's digest.
    pub(crate) fn source<'a>(
        &'a self,
        digest: &'a [u8; 32],
        version: Version,
    ) -> GarbledSource<'a, Global, Global>
        ensures version { result.version ≡ version }
        ensures circuit { result.circuit.now ≡ self.now.circuit }
        ensures digest { result.digest.now ≡ digest.now }
        ensures garbling { result.garbling.now ≡ self.now.garbling }
        ensures offset { result.offset ≡ self.now.offset }
    {
        GarbledSource {
            version,
            circuit: self.circuit.circuit(),
            digest,
            garbling: &self.garbling,
            offset: self.offset,
        }
    }
}
