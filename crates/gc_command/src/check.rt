//! The command `check`: the numbers of a circuit, and its digest.

ghost use Rattle.std.specs.Prelude.{◌≡◌, ◌++◌, ◌∷◌, [], ℕ, List, codes, IfOk, IfErr, IfSome, OnOk};
ghost use Rattle.hex.specs.Hex.{encode_lower};
ghost use Rattle.gc_netlist.specs.Spelling.{Name, words_of_widths};
ghost use Rattle.sha2.specs.Sha256.{sha256};
ghost use Rattle.gc_netlist.specs.Canon.{canonical_text, line};
ghost use Rattle.gc_command.specs.Check.{AnswersCheck, HasCheckFault, check_lines};
ghost use Rattle.gc_command.specs.Fault.{HasReadCause};

use crate::circuit_file::read_circuit_and_digest;
use crate::context::Context;
use crate::fault::Fault;
use crate::lines::{push_count, push_number};
use crate::progress::{Progress, Stage};
use gc_circuit::Circuit;
use gc_disk::Files;
use std::alloc::{AllocError, Allocator};
use std::thread::Threads;

/// Reads the circuit of a file, and returns the lines of its numbers and its digest.
#[inline(never)]
pub fn check<R: Threads, A: Allocator + Copy + Send + Sync, F: Files, P: Progress>(
    context: &Context<'_, R, A, P>,
    circuit: &str,
    files: &mut F,
) -> Result<Vec<u8, A>, Fault>
    ensures answers { IfOk result (λ lines. IfSome (F.bytes files.old circuit.now)
        (λ bytes. AnswersCheck bytes lines.items)) }
    ensures fault { IfErr result (λ fault. IfSome (F.bytes files.old circuit.now)
        (λ bytes. HasCheckFault bytes fault)) }
    ensures cause { IfErr result
        (HasReadCause (F.failures files.old) (F.failures files.new) circuit.now) }
    ensures same { (name : List ℕ) → F.bytes files.new name ≡ F.bytes files.old name }
{
    let alloc = context.alloc;
    context.progress.begin(1, 1, Stage::ReadingCircuit);
    let (circuit, digest) = read_circuit_and_digest(context.rt, alloc, circuit, files)?;
    Ok(check_lines(alloc, &circuit, &digest)?)
}

/// The lines of a circuit's numbers and its digest. The caller ensures that the digest is the circuit's.
fn check_lines<A: Allocator + Copy>(
    alloc: A,
    circuit: &Circuit<A>,
    digest: &[u8; 32],
) -> Result<Vec<u8, A>, AllocError>
    requires { digest.now ≡ sha256 (canonical_text circuit.now) }
    ensures { IfOk result (λ lines. lines.items ≡ check_lines circuit.now) }
{
    let mut lines = Vec::new(alloc);
    push_count(&mut lines, "gates", u64::from(circuit.gates()))?;
    push_count(&mut lines, "wires", u64::from(circuit.wires()))?;
    push_count(&mut lines, "and", u64::from(circuit.and_count()))?;
    push_widths(&mut lines, "inputs", circuit.input_widths())?;
    push_widths(&mut lines, "outputs", circuit.output_widths())?;
    push_digest(&mut lines, digest)?;
    Ok(lines)
}

/// Adds the line of a side's widths: how many there are, and each.
fn push_widths<A: Allocator>(
    lines: &mut Vec<u8, A>,
    name: &str,
    widths: &[u32],
) -> Result<(), AllocError>
    ensures { OnOk result (lines.new.items
        ≡ lines.old.items ++ line (Name name.now ∷ words_of_widths widths.now)) }
{
    lines.extend_from_slice(name.as_bytes())?;
    push_number(lines, widths.len() as u64)?;
    for width in widths {
        push_number(lines, u64::from(*width))?;
    }
    lines.push(b'\n')?;
    Ok(())
}

/// Adds the line of a digest.
fn push_digest<A: Allocator>(lines: &mut Vec<u8, A>, digest: &[u8; 32]) -> Result<(), AllocError>
    ensures { OnOk result (lines.new.items
        ≡ lines.old.items ++ line (Name (codes "digest") ∷ Name (encode_lower digest.now) ∷ [])) }
{
    let mut digits = [0; 64];
    hex::encode_to_slice(*digest, &mut digits).unwrap();
    lines.extend_from_slice(b"digest ")?;
    lines.extend_from_slice(&digits)?;
    lines.push(b'\n')?;
    Ok(())
}
