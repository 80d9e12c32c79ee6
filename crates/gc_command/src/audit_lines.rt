//! The lines of an audit.

ghost use Rattle.std.specs.Prelude.{◌≡◌, ◌++◌, ◌∷◌, ℕ, List, codes, decimal, IfOk, OnOk, Some};
ghost use Rattle.gc_half.specs.Canonical.{garbling_of};
ghost use Rattle.gc_half.specs.Comparing.{HasLabels};
ghost use Rattle.gc_file.specs.GarbledFile.{GarbledParts};
ghost use Rattle.gc_file.specs.declared.parts.Version.TheVariants.{Two};
ghost use Rattle.gc_audit.specs.Garbled.{IsGarbledAudit};
ghost use Rattle.gc_command.specs.Audit.{AreAuditLines, AreLabelsFound, bits_line, digest_line, end_line, entries_line, garbled_lines, is_dealt, parts_lines, rows_line, rows_name, value_word, verdict_line};

use crate::audit::{Audited, Compared};
use crate::lines::{push_field, push_number, push_word};
use crate::value_form::push_digits;
use gc_audit::{
    DifferingRows, EntryDifference, GarbledAudit, LabelsVerdict, PartsAudit, RowDifference,
    SeedReference, audit_labels,
};
use gc_circuit::Circuit;
use gc_file::Version;
use std::alloc::{AllocError, Allocator};

/// What is found of a garbled file and of label files, by the garbling of the circuit under the seed.
pub(crate) fn audit_lines<A: Allocator + Copy>(
    alloc: A,
    circuit: &Circuit<A>,
    found: &GarbledAudit,
    compared: &Compared<A>,
) -> Result<Audited<A>, AllocError>
    requires { HasLabels circuit.now compared.now.seed compared.now.garbling }
    ensures { IfOk result (λ made. (file : GarbledParts) → file.version ≡ compared.now.version
        → IsGarbledAudit circuit.now (garbling_of circuit.now compared.now.seed)
        compared.now.seed file found.now
        → AreAuditLines circuit.now compared.now.seed file compared.now.labels.items
        made.is_honest made.lines.items) }
{
    circuit.law_lawful();
    let mut lines = Vec::new(alloc);
    push_garbled(&mut lines, compared.version, found)?;
    let all_dealt = push_label_files(&mut lines, alloc, circuit, compared)?;
    let is_honest = found.is_honest() && all_dealt;
    push_end(&mut lines, is_honest)?;
    Ok(Audited { is_honest, lines })
}

/// Adds the lines of what is found of a garbled file of a version.
fn push_garbled<A: Allocator>(
    lines: &mut Vec<u8, A>,
    version: Version,
    found: &GarbledAudit,
) -> Result<(), AllocError>
    ensures { OnOk result (lines.new.items ≡ lines.old.items ++ garbled_lines version found.now) }
{
    push_digest(lines, found.digest)?;
    push_parts(lines, version, found.parts)
}

/// Adds the line of the digest.
fn push_digest<A: Allocator>(lines: &mut Vec<u8, A>, right: bool) -> Result<(), AllocError>
    ensures { OnOk result (lines.new.items ≡ lines.old.items ++ digest_line right) }
{
    if right {
        lines.extend_from_slice(b"digest right\n")
    } else {
        lines.extend_from_slice(b"digest wrong\n")
    }
}

/// Adds the lines of the parts that are counted.
fn push_parts<A: Allocator>(
    lines: &mut Vec<u8, A>,
    version: Version,
    parts: Option<PartsAudit>,
) -> Result<(), AllocError>
    ensures { OnOk result (lines.new.items ≡ lines.old.items ++ parts_lines version parts) }
{
    match parts {
        None => lines.extend_from_slice(b"counts wrong\n"),
        Some(parts) => push_counted(lines, version, parts),
    }
}

/// Adds the lines of the parts whose counts are right.
fn push_counted<A: Allocator>(
    lines: &mut Vec<u8, A>,
    version: Version,
    parts: PartsAudit,
) -> Result<(), AllocError>
    ensures { OnOk result (lines.new.items ≡ lines.old.items ++ parts_lines version (Some parts)) }
{
    lines.extend_from_slice(b"counts right\n")?;
    push_rows(lines, parts.rows)?;
    push_bits(lines, parts.bits)?;
    push_entries(lines, version, parts.entries)?;
    Ok(())
}

/// Adds the line of the row pairs.
fn push_rows<A: Allocator>(
    lines: &mut Vec<u8, A>,
    found: Option<RowDifference>,
) -> Result<(), AllocError>
    ensures { OnOk result (lines.new.items ≡ lines.old.items ++ rows_line found) }
{
    match found {
        None => lines.extend_from_slice(b"rows right\n"),
        Some(difference) => push_row_difference(lines, difference),
    }
}

/// Adds the line that says which row pair differs first.
fn push_row_difference<A: Allocator>(
    lines: &mut Vec<u8, A>,
    difference: RowDifference,
) -> Result<(), AllocError>
    ensures { OnOk result (lines.new.items ≡ lines.old.items ++ rows_line (Some difference)) }
{
    lines.extend_from_slice(b"rows wrong")?;
    push_number(lines, u64::from(difference.number))?;
    push_field(lines, "gate", difference.gate)?;
    push_field(lines, "wire", difference.wire)?;
    push_word(lines, rows_name(difference.rows))?;
    lines.push(b'\n')?;
    Ok(())
}

/// Which rows differ: the generator's, TG, the evaluator's, TE, or both.
fn rows_name(rows: DifferingRows) -> &'static str
    ensures { result.now ≡ rows_name rows }
{
    match rows {
        DifferingRows::Generator => "TG",
        DifferingRows::Evaluator => "TE",
        DifferingRows::Both => "TG TE",
    }
}

/// Adds the line of the decode bits.
fn push_bits<A: Allocator>(lines: &mut Vec<u8, A>, found: Option<u32>) -> Result<(), AllocError>
    ensures { OnOk result (lines.new.items ≡ lines.old.items ++ bits_line found) }
{
    let Some(output) = found else {
        return lines.extend_from_slice(b"bits right\n");
    };
    lines.extend_from_slice(b"bits wrong")?;
    push_number(lines, u64::from(output))?;
    lines.push(b'\n')?;
    Ok(())
}

/// Adds the line of the entries, which version 2 alone has.
fn push_entries<A: Allocator>(
    lines: &mut Vec<u8, A>,
    version: Version,
    found: Option<EntryDifference>,
) -> Result<(), AllocError>
    ensures { OnOk result (lines.new.items ≡ lines.old.items ++ entries_line version found) }
{
    match (version, found) {
        (Version::One, _) => Ok(()),
        (Version::Two, None) => lines.extend_from_slice(b"entries right\n"),
        (Version::Two, Some(difference)) => push_entry_difference(lines, difference),
    }
}

/// Adds the line that says which entry differs first.
fn push_entry_difference<A: Allocator>(
    lines: &mut Vec<u8, A>,
    difference: EntryDifference,
) -> Result<(), AllocError>
    ensures { OnOk result
        (lines.new.items ≡ lines.old.items ++ entries_line Two (Some difference)) }
{
    lines.extend_from_slice(b"entries wrong")?;
    push_number(lines, u64::from(difference.output))?;
    push_number(lines, u64::from(difference.colour))?;
    lines.push(b'\n')?;
    Ok(())
}

/// Adds the line of each label file, and returns whether all are the dealer's. The caller ensures that the garbling is
/// the circuit's under the seed.
fn push_label_files<A: Allocator + Copy>(
    lines: &mut Vec<u8, A>,
    alloc: A,
    circuit: &Circuit<A>,
    compared: &Compared<A>,
) -> Result<bool, AllocError>
    requires { HasLabels circuit.now compared.now.seed compared.now.garbling }
    ensures { IfOk result (λ all_dealt. (added : List ℕ)
        × AreLabelsFound circuit.now compared.now.seed compared.now.labels.items all_dealt added
        × (lines.new.items ≡ lines.old.items ++ added)) }
{
    let of = SeedReference {
        circuit,
        labels: &compared.garbling,
        seed: &compared.seed,
    };
    let files = compared.labels.as_slice();
    let mut all_dealt = true;
    for file in files {
        let Ok(verdict) = audit_labels(alloc, &of, file) else {
            return Err(AllocError);
        };
        push_verdict(lines, file.index(), &verdict)?;
        all_dealt &= is_dealt(&verdict);
    }
    Ok(all_dealt)
}

/// Adds the line of what is found of a label file with this index.
fn push_verdict<A: Allocator>(
    lines: &mut Vec<u8, A>,
    index: u32,
    verdict: &LabelsVerdict<A>,
) -> Result<(), AllocError>
    ensures { OnOk result (lines.new.items ≡ lines.old.items ++ verdict_line index verdict.now) }
{
    lines.extend_from_slice(b"labels")?;
    push_number(lines, u64::from(index))?;
    match verdict {
        LabelsVerdict::NoValue => push_word(lines, "no value")?,
        LabelsVerdict::WrongWidth => push_word(lines, "width")?,
        LabelsVerdict::WrongLabel(wire) => push_wrong(lines, *wire)?,
        LabelsVerdict::Bits(bits) => push_value(lines, bits)?,
    }
    lines.push(b'\n')?;
    Ok(())
}

/// Adds the words that say at which wire a label is wrong.
fn push_wrong<A: Allocator>(lines: &mut Vec<u8, A>, wire: u32) -> Result<(), AllocError>
    ensures { OnOk result
        (lines.new.items ≡ lines.old.items ++ 32 ∷ codes "wrong" ++ 32 ∷ decimal wire) }
{
    push_word(lines, "wrong")?;
    push_number(lines, u64::from(wire))
}

/// Adds a space and the bits of a value; nothing for no bits.
fn push_value<A: Allocator>(lines: &mut Vec<u8, A>, bits: &[bool]) -> Result<(), AllocError>
    ensures { OnOk result (lines.new.items ≡ lines.old.items ++ value_word bits.now) }
{
    if bits.is_empty() {
        return Ok(());
    }
    lines.push(b' ')?;
    push_digits(lines, bits)
}

/// Whether a label file is the dealer's.
fn is_dealt<A: Allocator>(verdict: &LabelsVerdict<A>) -> bool
    ensures { result ≡ is_dealt verdict.now }
{
    matches!(verdict, LabelsVerdict::Bits(_))
}

/// Adds the last line.
fn push_end<A: Allocator>(lines: &mut Vec<u8, A>, honest: bool) -> Result<(), AllocError>
    ensures { OnOk result (lines.new.items ≡ lines.old.items ++ end_line honest) }
{
    if honest {
        lines.extend_from_slice(b"honest\n")
    } else {
        lines.extend_from_slice(b"dishonest\n")
    }
}
