//! The files that `run` makes for itself: written to memory, and read back.

ghost use Rattle.std.specs.Prelude.{◌≡◌, Some, length, map, slice_get, IfOk, IfErr};
ghost use Rattle.sha2.specs.Sha256.{sha256};
ghost use Rattle.gc_netlist.specs.Canon.{canonical_text};
ghost use Rattle.gc_circuit.specs.Meaning.{Fits};
ghost use Rattle.gc_half.specs.Garbling.{IsGarbled};
ghost use Rattle.gc_file.specs.LabelFile.{label_parts_of};
ghost use Rattle.gc_job.specs.Honest.{IsHonestGarbled};
ghost use Rattle.gc_command.specs.OwnFiles.{AreGarbledBytes, AreLabelFilesOf};
ghost use Rattle.gc_command.specs.Run.{IsFilesMemoryFault};

use crate::fault::Fault;
use crate::seeded_circuit::SeededCircuit;
use gc_file::{
    Garbled, GarbledSource, LabelFile, MemSink, Trailer, Version, read_garbled, read_labels,
    write_garbled_file, write_labels,
};
use gc_half::Garbling;
use gc_label::offset;
use std::alloc::Allocator;

impl<A: Allocator + Copy> SeededCircuit<'_, A> {
    /// The garbled file of the circuit's garbling under the seed, in version 2. The caller ensures that the digest is
    /// the circuit's.
    pub fn own_garbled(&self, digest: &[u8; 32], garbling: Garbling<A>) -> Result<Garbled<A>, Fault>
        requires digest { digest.now ≡ sha256 (canonical_text self.now.circuit.now) }
        requires garbled { IsGarbled self.now.circuit.now self.now.seed.now garbling }
        ensures honest { IfOk result (IsHonestGarbled self.now.circuit.now self.now.seed.now) }
        ensures fault { IfErr result IsFilesMemoryFault }
    {
        self.circuit.law_lawful();
        let bytes = self.garbled_bytes(digest, garbling)?;
        Ok(read_garbled(self.alloc, &bytes)?)
    }

    /// The bytes of the garbled file, under the same conditions. The garbling itself is dropped.
    fn garbled_bytes(&self, digest: &[u8; 32], garbling: Garbling<A>) -> Result<Vec<u8, A>, Fault>
        requires digest { digest.now ≡ sha256 (canonical_text self.now.circuit.now) }
        requires garbled { IsGarbled self.now.circuit.now self.now.seed.now garbling }
        ensures file { IfOk result
            (λ bytes. AreGarbledBytes self.now.circuit.now self.now.seed.now bytes.items) }
        ensures fault { IfErr result IsFilesMemoryFault }
    {
        let mut sink = MemSink::new(self.alloc, None);
        let source = GarbledSource {
            version: Version::Two,
            circuit: self.circuit,
            digest,
            garbling: &garbling,
            offset: offset(self.seed),
        };
        let written = write_garbled_file(&mut sink, &source, Trailer::Written);
        written.map_err(|_| Fault::Memory)?;
        Ok(sink.into_bytes())
    }

    /// The label file of each of these values under the seed, in order. The caller ensures that the values fit the
    /// circuit.
    pub fn own_labels(&self, values: &[Vec<bool, A>]) -> Result<Vec<LabelFile<A>, A>, Fault>
        requires { Fits self.now.circuit.now (map (λ value. value.items) values.now) }
        ensures labels { IfOk result (λ labels. AreLabelFilesOf self.now.circuit.now
            self.now.seed.now (map (λ value. value.items) values.now) labels.items) }
        ensures fault { IfErr result IsFilesMemoryFault }
    {
        self.circuit.law_lawful();
        let mut labels = Vec::with_capacity(self.alloc, values.len())?;
        for (i, value) in values.iter().enumerate() {
            labels.push(self.own_label_file(i as u32, value)?)?;
        }
        Ok(labels)
    }

    /// The label file of the input value of this index. The caller ensures that there is one, and that the bits have
    /// its width.
    fn own_label_file(&self, index: u32, bits: &[bool]) -> Result<LabelFile<A>, Fault>
        requires { slice_get self.now.circuit.now.input_widths index ≡ Some (length bits.now) }
        ensures parts { IfOk result (λ file.
            file ≡ label_parts_of self.now.circuit.now self.now.seed.now index bits.now) }
        ensures fault { IfErr result IsFilesMemoryFault }
    {
        self.circuit.law_lawful();
        let mut sink = MemSink::new(self.alloc, None);
        let written = write_labels(&mut sink, self.circuit, self.seed, index, bits);
        written.map_err(|_| Fault::Memory)?;
        Ok(read_labels(self.alloc, sink.bytes())?)
    }
}
