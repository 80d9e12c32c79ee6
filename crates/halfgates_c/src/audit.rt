//! Comparing garbled files, row pairs and decode bits with a garbling.

ghost use Rattle.std.specs.Prelude.{◌≡◌, ◌≢◌, OnOk, OnErr, IfErr, pos};
ghost use Rattle.core.specs.Ptr.{as_mut_ptr};
ghost use denote.RawPtr.{Testable};
ghost use Rattle.gc_kept.specs.Audit.{HasGarbledAuditFault, HasRowsAuditFault};
ghost use Rattle.halfgates_c.specs.ReturnsCode.{ReturnsCode};
ghost use Rattle.halfgates_c.specs.Holding.{OfGarbling};
ghost use Rattle.halfgates_c.specs.Reports.{AreRowFields, AreRowFlags, IsReport, IsReportOn, IsRowsReport, IsRowsReportOn, version_number};

use crate::code::{NULL_POINTER, OK, code_of};
use crate::handle::{Handle, on_held};
use crate::locate::NONE;
use crate::null::is_null;
use gc_audit::{DifferingRows, GarbledAudit, RowDifference};
use gc_file::Version;
use gc_kept::{KeptFault, KeptGarbling, RowsAudit};
use std::alloc::Global;

/// What an audit finds of a garbled file: `halfgates_audit_report`.
#[repr(C)]
#[derive(Clone, Copy)]
pub struct Report {
    pub honest: u8,
    pub version: u8,
    pub digest: u8,
    pub counts: u8,
    pub generator: u8,
    pub evaluator: u8,
    pub entry_colour: u8,
    pub row: u32,
    pub gate: u32,
    pub wire: u32,
    pub decode_bit: u32,
    pub entry: u32,
}

/// The number of a version.
fn version_number(version: Version) -> u8
    ensures { result ≡ version_number version }
{
    match version {
        Version::One => 1,
        Version::Two => 2,
    }
}

/// The fields of a report on row pairs.
#[derive(Clone, Copy)]
struct RowFields {
    generator: u8,
    evaluator: u8,
    row: u32,
    gate: u32,
    wire: u32,
}

/// Whether the generator's row differs, and whether the evaluator's does.
fn row_flags(rows: DifferingRows) -> (u8, u8)
    ensures { AreRowFlags rows result.0 result.1 }
{
    match rows {
        DifferingRows::Generator => (1, 0),
        DifferingRows::Evaluator => (0, 1),
        DifferingRows::Both => (1, 1),
    }
}

/// The fields for the first row pair that differs, if there is one.
fn row_fields(rows: Option<RowDifference>) -> RowFields
    ensures { AreRowFields rows
        result.generator result.evaluator result.row result.gate result.wire }
{
    let Some(difference) = rows else {
        return RowFields {
            generator: 0,
            evaluator: 0,
            row: NONE,
            gate: NONE,
            wire: NONE,
        };
    };
    let (generator, evaluator) = row_flags(difference.rows);
    RowFields {
        generator,
        evaluator,
        row: difference.number,
        gate: difference.gate,
        wire: difference.wire,
    }
}

/// The report of what is found of a garbled file of a version.
fn report_of(version: Version, found: &GarbledAudit) -> Report
    ensures { IsReport version found.now result }
{
    let rows = row_fields(found.parts.and_then(|parts| parts.rows));
    let entry = found.parts.and_then(|parts| parts.entries);
    Report {
        honest: u8::from(found.is_honest()),
        version: version_number(version),
        digest: u8::from(found.digest),
        counts: u8::from(found.parts.is_some()),
        generator: rows.generator,
        evaluator: rows.evaluator,
        entry_colour: entry.map_or(0, |entry| u8::from(entry.colour)),
        row: rows.row,
        gate: rows.gate,
        wire: rows.wire,
        decode_bit: found.parts.and_then(|parts| parts.bits).unwrap_or(NONE),
        entry: entry.map_or(NONE, |entry| entry.output),
    }
}

/// Compares a garbled file with a garbling, and writes a report.
fn audit(
    alloc: Global,
    garbling: &KeptGarbling,
    file: &[u8],
    report: &mut Report,
) -> Result<(), KeptFault>
    ensures ok { OnOk result (IsReportOn garbling.now file.now report.new) }
    ensures fault { IfErr result (HasGarbledAuditFault garbling.now file.now) }
    ensures kept { OnErr result (report.new ≡ report.old) }
{
    let (version, found) = garbling.audit(alloc, file)?;
    *report = report_of(version, &found);
    Ok(())
}

/// Compares a garbled file with a garbling.
#[unsafe(no_mangle)]
pub extern "C" fn halfgates_audit(
    alloc: Global,
    garbling: &mut Handle,
    file: &[u8],
    report: &mut Report,
) -> i32
    requires report { Testable (as_mut_ptr report) }
    ensures answer { OfGarbling garbling.old.held result (λ g.
        ReturnsCode result (IsReportOn g file.now report.new) (HasGarbledAuditFault g file.now)) }
    ensures back { garbling.new ≡ garbling.old }
    ensures kept { result ≢ pos 0 → report.new ≡ report.old }
{
    if is_null(report) {
        return NULL_POINTER;
    }
    on_held!(garbling, Garbling(garbling) => {
        code_of(audit(alloc, garbling, file, report))
    })
}

/// What an audit finds of row pairs and decode bits: `halfgates_rows_report`.
#[repr(C)]
#[derive(Clone, Copy)]
pub struct RowsReport {
    pub honest: u8,
    pub generator: u8,
    pub evaluator: u8,
    pub row: u32,
    pub gate: u32,
    pub wire: u32,
    pub decode_bit: u32,
}

/// The report of what is found of row pairs and decode bits.
fn rows_report_of(found: &RowsAudit) -> RowsReport
    ensures { IsRowsReport found.now result }
{
    let rows = row_fields(found.rows);
    RowsReport {
        honest: u8::from(found.is_honest()),
        generator: rows.generator,
        evaluator: rows.evaluator,
        row: rows.row,
        gate: rows.gate,
        wire: rows.wire,
        decode_bit: found.bits.unwrap_or(NONE),
    }
}

/// Compares row pairs and decode bits with a garbling.
#[unsafe(no_mangle)]
pub extern "C" fn halfgates_audit_rows(
    alloc: Global,
    garbling: &mut Handle,
    rows: &[u8],
    decode_bits: &[u8],
    report: &mut RowsReport,
) -> i32
    requires report { Testable (as_mut_ptr report) }
    ensures answer { OfGarbling garbling.old.held result (λ g.
        ReturnsCode result (IsRowsReportOn g rows.now decode_bits.now report.new)
        (HasRowsAuditFault g rows.now decode_bits.now)) }
    ensures back { garbling.new ≡ garbling.old }
    ensures kept { result ≢ pos 0 → report.new ≡ report.old }
{
    if is_null(report) {
        return NULL_POINTER;
    }
    on_held!(garbling, Garbling(garbling) => match garbling.audit_rows(alloc, rows, decode_bits) {
        Ok(found) => {
            *report = rows_report_of(&found);
            OK
        }
        Err(fault) => code_of(Err(fault)),
    })
}
