//! Comparing a garbled file with the garbling of a circuit.

ghost use Rattle.std.specs.Prelude.{◌≡◌, ◌↔◌, List, MatchOption, IsTrue, length};
ghost use Rattle.sha2.specs.Sha256.{sha256};
ghost use Rattle.gc_netlist.specs.Canon.{canonical_text};
ghost use Rattle.gc_netlist.specs.Circuit.{output_wires};
ghost use Rattle.gc_half.specs.declared.garbling.RowPair.{RowPair};
ghost use Rattle.gc_half.specs.Canonical.{garbling_of};
ghost use Rattle.gc_half.specs.Comparing.{HasLabels, IsComparison};
ghost use Rattle.gc_half.specs.Garbling.{FitsCircuit};
ghost use Rattle.gc_file.specs.GarbledFile.{GarbledParts, entry_count};
ghost use Rattle.gc_file.specs.Honest.{honest_parts_with};
ghost use Rattle.gc_audit.specs.Garbled.{AreCountsRight, IsBitsAudit, IsPartsAudit, IsPartsAuditWith, IsGarbledAuditWith, honest_audit};

use crate::entries::{EntryDifference, audit_entries};
use crate::reference::{Reference, SeedReference};
use crate::rows::{RowDifference, first_mismatch, row_difference};
use gc_circuit::Circuit;
use gc_file::{EntryPair, Garbled, Version};
use gc_half::{Garbling, Mismatch};
use gc_label::offset;
use std::alloc::Allocator;

/// What an audit finds of a garbled file: in each part the first difference from the circuit's garbling, or none.
#[derive(Clone, Copy, PartialEq, Eq, Debug)]
pub struct GarbledAudit {
    /// Whether the digest is that of the circuit.
    pub digest: bool,
    /// What it finds of the other parts, where their counts are right.
    pub parts: Option<PartsAudit>,
}

/// What an audit finds of the parts of a garbled file whose counts are right: it has a row pair for each AND gate and a
/// decode bit for each output wire.
#[derive(Clone, Copy, PartialEq, Eq, Debug)]
pub struct PartsAudit {
    /// The first AND gate whose row pair differs.
    pub rows: Option<RowDifference>,
    /// The first output whose decode bit differs, counted from 0 over all output wires.
    pub bits: Option<u32>,
    /// The first entry that differs. Version 1 has no entries, and no difference in them.
    pub entries: Option<EntryDifference>,
}

impl GarbledAudit {
    /// Whether nothing differs.
    pub fn is_honest(&self) -> bool
        ensures { IsTrue result ↔ (self.now ≡ honest_audit) }
    {
        *self
            == GarbledAudit {
                digest: true,
                parts: Some(PartsAudit {
                    rows: None,
                    bits: None,
                    entries: None,
                }),
            }
    }
}

/// Compares a garbled file of either version with the garbling of a circuit, part by part; a part that differs leaves
/// no other out, but where the counts are wrong the parts that they count are not compared. Nothing differs exactly
/// where the file holds what the garbled file of its version holds that is written of this garbling.
///
/// The digest is the circuit's, from [`Circuit::digest`], and the garbling fits the circuit: these are the caller's
/// conditions. The AND gates of the garbling are numbered from 0 on. It allocates nothing.
pub fn audit_garbled<A: Allocator, B: Allocator, C: Allocator>(
    of: &Reference<'_, A, B>,
    digest: &[u8; 32],
    file: &Garbled<C>,
) -> GarbledAudit
    requires digest { digest.now ≡ sha256 (canonical_text of.now.circuit.now) }
    requires fits { FitsCircuit of.now.circuit.now of.now.garbling.now }
    ensures audit { IsGarbledAuditWith of.now.circuit.now of.now.garbling.now of.now.offset
        file.now result }
    ensures honest { (result ≡ honest_audit) ↔ (file.now ≡ honest_parts_with file.now.version
        of.now.circuit.now of.now.garbling.now of.now.offset) }
{
    of.circuit.law_lawful();
    GarbledAudit {
        digest: file.digest() == *digest,
        parts: audit_parts(of, file),
    }
}

/// Compares the parts that are counted, where the counts are right.
fn audit_parts<A: Allocator, B: Allocator, C: Allocator>(
    of: &Reference<'_, A, B>,
    file: &Garbled<C>,
) -> Option<PartsAudit>
    requires { FitsCircuit of.now.circuit.now of.now.garbling.now }
    ensures { MatchOption result (¬ AreCountsRight of.now.circuit.now file.now)
        (IsPartsAuditWith of.now.circuit.now of.now.garbling.now of.now.offset file.now) }
{
    if !are_counts_right(of.circuit, file) {
        return None;
    }
    let first = first_mismatch(of.garbling.rows(), file.rows());
    Some(PartsAudit {
        rows: row_difference(of.circuit, first),
        bits: audit_bits(of.garbling, file.decode_bits()),
        entries: audit_entries(of, file.version(), file.entries()),
    })
}

/// The parts of a garbled file whose row pairs were compared with a garbling's before.
#[derive(Drop)]
pub struct ComparedFile<'a> {
    pub version: Version,
    /// The first row pair that is not the garbling's.
    pub first: Option<Mismatch>,
    pub decode_bits: &'a [bool],
    pub entries: &'a [EntryPair],
}

/// What an audit finds of the parts of a garbled file, as [`audit_garbled`] does, where its row pairs were compared
/// before.
///
/// The counts of the file are right, as [`are_counts_right`] says, and the labels are those of the seed: these are the
/// caller's conditions. It doesn't allocate.
pub fn audit_compared<A: Allocator, B: Allocator>(
    of: &SeedReference<'_, A, B>,
    compared: &ComparedFile<'_>,
) -> PartsAudit
    requires labels { HasLabels of.now.circuit.now of.now.seed.now of.now.labels.now }
    requires first { (filed : List RowPair)
        × IsComparison of.now.circuit.now of.now.seed.now filed compared.now.first }
    requires bits { length compared.now.decode_bits.now ≡ output_wires of.now.circuit.now }
    requires entries { length compared.now.entries.now
        ≡ entry_count compared.now.version (length compared.now.decode_bits.now) }
    ensures { (file : GarbledParts) → AreCountsRight of.now.circuit.now file
        → file.version ≡ compared.now.version
        → file.decode_bits ≡ compared.now.decode_bits.now
        → file.entries ≡ compared.now.entries.now
        → IsComparison of.now.circuit.now of.now.seed.now file.rows compared.now.first
        → IsPartsAudit of.now.circuit.now (garbling_of of.now.circuit.now of.now.seed.now)
        of.now.seed.now file result }
{
    of.circuit.law_lawful();
    let reference = Reference {
        circuit: of.circuit,
        garbling: of.labels,
        offset: offset(of.seed),
    };
    PartsAudit {
        rows: row_difference(of.circuit, compared.first),
        bits: audit_bits(of.labels, compared.decode_bits),
        entries: audit_entries(&reference, compared.version, compared.entries),
    }
}

/// Whether a garbled file has as many row pairs, decode bits and entry pairs as the circuit and its version ask for.
pub fn are_counts_right<A: Allocator, B: Allocator>(circuit: &Circuit<A>, file: &Garbled<B>) -> bool
    ensures { IsTrue result ↔ AreCountsRight circuit.now file.now }
{
    file.rows().len() == circuit.and_count() as usize
        && file.decode_bits().len() == circuit.output_wires() as usize
        && file.entries().len() == file.version().entry_count(circuit.output_wires()) as usize
}

/// The first output whose decode bit is not the garbling's, which may have any first AND number. The caller ensures
/// that there are as many decode bits as outputs. It allocates nothing.
pub fn audit_bits<A: Allocator>(garbling: &Garbling<A>, bits: &[bool]) -> Option<u32>
    requires { length bits.now ≡ garbling.now.outputs }
    ensures { IsBitsAudit garbling.now bits.now result }
{
    for i in 0..garbling.outputs() {
        if bits[i as usize] != garbling.decode_bit(i) {
            return Some(i);
        }
    }
    None
}
