//! Comparing files, row pairs and decode bits in memory with a garbling.

ghost use Rattle.std.specs.Prelude.{◌≡◌, ◌↔◌, IfOk, IfErr, IsTrue};
ghost use Rattle.gc_kept.specs.Audit.{IsAuditOf, HasGarbledAuditFault, IsLabelsAuditOf, HasLabelsAuditFault, IsRowsAuditOf, HasRowsAuditFault, honest_rows};

use crate::bits::read_bits;
use crate::fault::KeptFault;
use crate::garbling::KeptGarbling;
use gc_audit::{
    GarbledAudit, LabelsVerdict, Reference, RowDifference, audit_bits, audit_garbled,
    audit_labels_with_offset, audit_row_bytes,
};
use gc_file::sizes::PAIR;
use gc_file::{Version, read_garbled, read_labels};
use gc_job::EvalFault;
use std::alloc::Global;

/// What an audit finds of row pairs and decode bits: of each the first difference from the garbling, or none.
#[derive(Clone, Copy, PartialEq, Eq, Debug)]
pub struct RowsAudit {
    /// The first AND gate whose row pair differs.
    pub rows: Option<RowDifference>,
    /// The first output whose decode bit differs, counted from 0 over all output wires.
    pub bits: Option<u32>,
}

impl RowsAudit {
    /// Whether nothing differs.
    pub fn is_honest(&self) -> bool
        ensures { IsTrue result ↔ (self.now ≡ honest_rows) }
    {
        *self
            == RowsAudit {
                rows: None,
                bits: None,
            }
    }
}

impl KeptGarbling {
    /// What files are compared with.
    fn reference(&self) -> Reference<'_, Global, Global>
        ensures circuit { result.circuit.now ≡ self.now.circuit }
        ensures garbling { result.garbling.now ≡ self.now.garbling }
        ensures offset { result.offset ≡ self.now.offset }
    {
        Reference {
            circuit: self.circuit.circuit(),
            garbling: &self.garbling,
            offset: self.offset,
        }
    }

    /// Compares a garbled file with the garbling, as [`gc_audit::audit_garbled`] does: the version of the file, and
    /// what is found. It refuses a garbling whose AND gates aren't numbered from 0 on (60), and one of a circuit that
    /// had no digest (68).
    pub fn audit(&self, alloc: Global, file: &[u8]) -> Result<(Version, GarbledAudit), KeptFault>
        ensures ok { IfOk result (λ found. IsAuditOf self.now file.now found.0 found.1) }
        ensures fault { IfErr result (HasGarbledAuditFault self.now file.now) }
    {
        let digest = self.file_digest()?;
        self.law_garbled();
        let file = read_garbled(alloc, file)?;
        let found = audit_garbled(&self.reference(), digest, &file);
        Ok((file.version(), found))
    }

    /// Compares row pairs, 32 bytes for each AND gate, and decode bits, a byte 0 or 1 for each output wire, with the
    /// garbling. It refuses another number of bytes (66), then another number of decode bits (16) and a byte other than
    /// 0 and 1 (15).
    pub fn audit_rows(
        &self,
        alloc: Global,
        rows: &[u8],
        decode_bits: &[u8],
    ) -> Result<RowsAudit, KeptFault>
        ensures ok { IfOk result (IsRowsAuditOf self.now rows.now decode_bits.now) }
        ensures fault { IfErr result (HasRowsAuditFault self.now rows.now decode_bits.now) }
    {
        self.law_garbled();
        let circuit = self.circuit.circuit();
        if rows.len() != PAIR * circuit.and_count() as usize {
            return Err(KeptFault::WrongSize);
        }
        let bits = read_bits(alloc, decode_bits, circuit.output_wires() as usize)?;
        Ok(RowsAudit {
            rows: audit_row_bytes(circuit, &self.garbling, rows),
            bits: audit_bits(&self.garbling, &bits),
        })
    }

    /// Compares a label file with the garbling, as [`gc_audit::audit_labels_with_offset`] does: the index that is in
    /// the file, and what is found.
    pub fn audit_labels(
        &self,
        alloc: Global,
        file: &[u8],
    ) -> Result<(u32, LabelsVerdict<Global>), KeptFault>
        ensures ok { IfOk result (λ found. IsLabelsAuditOf self.now file.now found.0 found.1) }
        ensures fault { IfErr result (HasLabelsAuditFault file.now) }
    {
        self.law_garbled();
        let file = read_labels(alloc, file)?;
        match audit_labels_with_offset(alloc, &self.reference(), &file) {
            Ok(verdict) => Ok((file.index(), verdict)),
            Err(_) => Err(KeptFault::Evaluation(EvalFault::Memory)),
        }
    }
}
