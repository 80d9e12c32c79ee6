//! Comparing label files with a garbling.

ghost use Rattle.std.specs.Prelude.{◌≡◌, ◌≢◌, IfErr, OnErr, OnOk, length, pos};
ghost use Rattle.core.specs.Ptr.{as_mut_ptr};
ghost use denote.RawPtr.{Testable};
ghost use Rattle.halfgates_c.specs.Holding.{OfGarbling};
ghost use Rattle.halfgates_c.specs.ReturnsCode.{ReturnsCode};
ghost use Rattle.halfgates_c.specs.LabelsReports.{AreFoundAt, HasNoRoomFor, HasReportFault, IsLabelsReportOn, SaysVerdict};

use crate::code::{NULL_POINTER, code_of};
use crate::handle::{Handle, on_held};
use crate::locate::NONE;
use crate::null::is_null;
use gc_audit::LabelsVerdict;
use gc_kept::{KeptFault, KeptGarbling, write_bits};
use std::alloc::Global;

/// What an audit finds of a label file: `halfgates_labels_report`.
#[repr(C)]
#[derive(Clone, Copy)]
pub struct LabelsReport {
    pub verdict: i32,
    pub index: u32,
    pub count: u32,
    pub wire: u32,
}

/// The report of what is found of a label file with this index.
fn report_of(index: u32, found: &LabelsVerdict<Global>) -> LabelsReport
    ensures index { result.index ≡ index }
    ensures says { SaysVerdict found.now result }
{
    let (verdict, count, wire) = match found {
        LabelsVerdict::NoValue => (42, 0, NONE),
        LabelsVerdict::WrongWidth => (43, 0, NONE),
        LabelsVerdict::WrongLabel(wire) => (63, 0, *wire),
        LabelsVerdict::Bits(bits) => (0, bits.len().min(NONE as usize) as u32, NONE),
    };
    LabelsReport {
        verdict,
        index,
        count,
        wire,
    }
}

/// Writes the bits that are found to the front of a buffer.
fn write_found(found: &LabelsVerdict<Global>, bits: &mut [u8]) -> Result<(), KeptFault>
    ensures ok { OnOk result (AreFoundAt found.now bits.old bits.new) }
    ensures fault { IfErr result (λ fault.
        (fault ≡ KeptFault.SmallBuffer) × HasNoRoomFor found.now (length bits.old)) }
    ensures unwritten { OnErr result (bits.new ≡ bits.old) }
{
    let LabelsVerdict::Bits(found) = found else {
        return Ok(());
    };
    if bits.len() < found.len() {
        return Err(KeptFault::SmallBuffer);
    }
    write_bits(found, bits);
    Ok(())
}

/// A label file, and the garbling with which it is compared.
#[derive(Clone, Copy)]
struct Compared<'a> {
    garbling: &'a KeptGarbling,
    file: &'a [u8],
}

/// Compares a label file with a garbling, and writes a report and the bits that are found.
fn audit(
    alloc: Global,
    of: Compared<'_>,
    bits: &mut [u8],
    report: &mut LabelsReport,
) -> Result<(), KeptFault>
    ensures ok { OnOk result (IsLabelsReportOn of.entry.garbling.now of.entry.file.now
        bits.old bits.new report.new) }
    ensures fault { IfErr result (HasReportFault of.entry.garbling.now of.entry.file.now
        (length bits.old) report.new) }
    ensures unwritten { OnErr result (bits.new ≡ bits.old) }
    ensures unreported { IfErr result (λ fault.
        fault ≢ KeptFault.SmallBuffer → report.new ≡ report.old) }
{
    let (index, found) = of.garbling.audit_labels(alloc, of.file)?;
    *report = report_of(index, &found);
    write_found(&found, bits)
}

/// Compares a label file with a garbling.
#[unsafe(no_mangle)]
pub extern "C" fn halfgates_audit_labels(
    alloc: Global,
    garbling: &mut Handle,
    file: &[u8],
    bits: &mut [u8],
    report: &mut LabelsReport,
) -> i32
    requires report { Testable (as_mut_ptr report) }
    ensures answer { OfGarbling garbling.old.held result
        (λ g. ReturnsCode result (IsLabelsReportOn g file.now bits.old bits.new report.new)
        (HasReportFault g file.now (length bits.old) report.new)) }
    ensures kept { result ≢ pos 0 → bits.new ≡ bits.old }
    ensures unreported { result ≢ pos 0 → result ≢ pos 61 → report.new ≡ report.old }
    ensures back { garbling.new ≡ garbling.old }
{
    if is_null(report) {
        return NULL_POINTER;
    }
    on_held!(garbling, Garbling(garbling) => {
        code_of(audit(alloc, Compared { garbling, file }, bits, report))
    })
}
