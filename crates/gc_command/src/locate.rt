//! The command `locate`: where the first fault of a circuit's text is.

ghost use Rattle.std.specs.Prelude.{◌≡◌, ◌++◌, ℕ, List, IfOk, IfErr, IfSome, OnOk};
ghost use Rattle.gc_command.specs.Fault.{HasReadCause};
ghost use Rattle.gc_command.specs.Locate.{AnswersLocate, HasLocateFault, fault_line, located_lines, optional_line};

use crate::fault::Fault;
use crate::lines::{push_count, push_number, push_word};
use gc_circuit::{Circuit, Located, ReadFault};
use gc_disk::Files;
use std::alloc::{AllocError, Allocator};

/// Reads the text of a file, and returns where its first fault is as a circuit, or the line `no fault`.
#[inline(never)]
pub fn locate<A: Allocator + Copy, F: Files>(
    alloc: A,
    circuit: &str,
    files: &mut F,
) -> Result<Vec<u8, A>, Fault>
    ensures answers { IfOk result (λ lines. IfSome (F.bytes files.old circuit.now)
        (λ bytes. AnswersLocate bytes lines.items)) }
    ensures fault { IfErr result (λ fault. IfSome (F.bytes files.old circuit.now)
        (λ bytes. HasLocateFault bytes fault)) }
    ensures cause { IfErr result
        (HasReadCause (F.failures files.old) (F.failures files.new) circuit.now) }
    ensures same { (name : List ℕ) → F.bytes files.new name ≡ F.bytes files.old name }
{
    let text = files.read(alloc, circuit)?;
    match Circuit::locate(alloc, &text) {
        Ok(Some(located)) => Ok(located_lines(alloc, &located)?),
        Ok(None) => Ok(Vec::from_slice(alloc, b"no fault\n")?),
        Err(_) => Err(Fault::Circuit(ReadFault::Memory)),
    }
}

/// The lines of a fault and its place.
fn located_lines<A: Allocator>(alloc: A, located: &Located) -> Result<Vec<u8, A>, AllocError>
    ensures { IfOk result (λ lines. lines.items ≡ located_lines located.now) }
{
    let mut lines = Vec::new(alloc);
    push_fault(&mut lines, located.fault)?;
    push_count(&mut lines, "line", located.line)?;
    push_count(&mut lines, "column", located.column)?;
    push_optional(&mut lines, "gate", located.gate)?;
    push_optional(&mut lines, "wire", located.wire)?;
    Ok(lines)
}

/// Adds the line of a fault: its number and its name.
fn push_fault<A: Allocator>(lines: &mut Vec<u8, A>, fault: ReadFault) -> Result<(), AllocError>
    ensures { OnOk result (lines.new.items ≡ lines.old.items ++ fault_line fault) }
{
    lines.extend_from_slice(b"fault")?;
    push_number(lines, u64::from(fault.code()))?;
    push_word(lines, fault.name())?;
    lines.push(b'\n')?;
    Ok(())
}

/// Adds the line of a name and a number, if there is one.
fn push_optional<A: Allocator>(
    lines: &mut Vec<u8, A>,
    name: &str,
    number: Option<u32>,
) -> Result<(), AllocError>
    ensures { OnOk result (lines.new.items ≡ lines.old.items ++ optional_line name.now number) }
{
    match number {
        Some(number) => push_count(lines, name, u64::from(number)),
        None => Ok(()),
    }
}
