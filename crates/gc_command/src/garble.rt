//! The command `garble`: writing a garbled file.

ghost use Rattle.std.specs.Prelude.{◌≡◌, ◌≢◌, ℕ, List, IfOk, IfErr, OnOk, OnErr, IfSome, string_bytes};
ghost use Rattle.sha2.specs.Sha256.{sha256};
ghost use Rattle.gc_netlist.specs.Canon.{canonical_text};
ghost use Rattle.gc_half.specs.Garbling.{FitsCircuit, IsGarbled};
ghost use Rattle.gc_file.specs.GarbledFile.{garbled_file};
ghost use Rattle.gc_file.specs.Honest.{honest_parts_with};
ghost use Rattle.gc_work.specs.WorkFault.{JudgesWorkers};
ghost use Rattle.gc_disk.specs.Files.{HasFailed};
ghost use Rattle.gc_command.specs.Garble.{AnswersGarble, HasGarbleFault, IsGarbleInput, IsGarbleInputFault};
ghost use Rattle.gc_command.specs.Wrote.{HasWritten, IsUnwritten, KeepsFiles};
ghost use Rattle.gc_command.specs.Fault.{HasCause, HasWriteCause};

use crate::context::Context;
use crate::digest::with_digest;
use crate::fault::Fault;
use crate::garbling;
use crate::progress::{Progress, Stage};
use crate::wrote::{ROOM, keep_written, wrote_line};
use gc_circuit::Circuit;
use gc_disk::Files;
use gc_file::{GarbledSource, Trailer, write_garbled_file};
use gc_half::Garbling;
use gc_label::{Seed, offset};
use gc_order::GarbleOrder;
use gc_work::WorkFault;
use std::alloc::Allocator;
use std::sync::Wait;
use std::thread::Threads;

/// Garbles the circuit of a file under a seed with this many workers, writes the garbled file, and returns the line
/// that states its bytes. A file in place of the garbled file is replaced at once, and stays as it is at a fault.
#[inline(never)]
pub fn garble<R: Threads + Wait + Sync, A: Allocator + Copy + Send + Sync, F: Files, P: Progress>(
    context: &Context<'_, R, A, P>,
    order: &GarbleOrder,
    files: &mut F,
) -> Result<Vec<u8, A>, Fault>
    ensures answers { IfOk result
        (λ lines. IfSome (F.bytes files.old (string_bytes order.now.circuit))
        (λ bytes. AnswersGarble bytes (string_bytes order.now.seed) order.now.version
        order.now.workers (F.bytes files.new (string_bytes order.now.out)) lines.items)) }
    ensures fault { IfErr result
        (λ fault. IfSome (F.bytes files.old (string_bytes order.now.circuit))
        (λ bytes. HasGarbleFault bytes (string_bytes order.now.seed) order.now.workers fault)) }
    ensures cause { IfErr result (λ fault. HasCause fault
        (HasFailed (F.failures files.old) (F.failures files.new) (string_bytes order.now.circuit))
        (HasFailed (F.failures files.old) (F.failures files.new) (string_bytes order.now.out))) }
    ensures others { (n : List ℕ) → n ≢ string_bytes order.now.out
        → F.bytes files.new n ≡ F.bytes files.old n }
    ensures unwritten { OnErr result (KeepsFiles (F.bytes files.old) (F.bytes files.new)) }
    ensures apart { OnOk result (string_bytes order.now.out ≢ string_bytes order.now.circuit) }
{
    let (rt, alloc) = (context.rt, context.alloc);
    context.progress.begin(1, 3, Stage::ReadingCircuit);
    let bytes = files.read(alloc, order.circuit.as_str())?;
    let text = bytes.as_slice();
    let (circuit, made, digest) = with_digest(
        rt,
        text,
        &mut || read_input(alloc, order, text),
        &|circuit, seed| garble_input(context, order, circuit, seed),
    )?;
    drop(bytes);
    let (garbling, seed) = made?;
    context.progress.begin(3, 3, Stage::Writing);
    let source = GarbledSource {
        version: order.version,
        circuit: &circuit,
        digest: &digest,
        garbling: &garbling,
        offset: offset(&seed),
    };
    write_garbling(alloc, order, &source, files)
}

/// Reads the circuit of a text, and the seed.
fn read_input<A: Allocator + Copy>(
    alloc: A,
    order: &GarbleOrder,
    text: &[u8],
) -> Result<(Circuit<A>, Seed), Fault>
    ensures input { IfOk result
        (λ made. IsGarbleInput text.now (string_bytes order.now.seed) made.0 made.1) }
    ensures fault { IfErr result
        (IsGarbleInputFault text.now (string_bytes order.now.seed) order.now.workers) }
{
    let circuit = Circuit::read(alloc, text)?;
    let seed = Seed::from_hex(order.seed.as_str())?;
    Ok((circuit, seed))
}

/// The garbling of the circuit under the seed, with this many workers, and the seed.
fn garble_input<R: Threads + Wait + Sync, A: Allocator + Copy + Send + Sync, P: Progress>(
    context: &Context<'_, R, A, P>,
    order: &GarbleOrder,
    circuit: &Circuit<A>,
    seed: Seed,
) -> Result<(Garbling<A>, Seed), WorkFault>
    ensures garbled { IfOk result (λ made. IsGarbled circuit.now seed made.0) }
    ensures seed { IfOk result (λ made. made.1 ≡ seed) }
    ensures workers { JudgesWorkers order.now.workers result }
{
    Ok((
        garbling::garble(context, circuit, &seed, order.workers)?,
        seed,
    ))
}

/// Writes the garbled file of a garbling, which is not the circuit's file. The caller ensures that the digest is the
/// circuit's, and that the garbling fits the circuit.
fn write_garbling<A: Allocator + Copy, F: Files>(
    alloc: A,
    order: &GarbleOrder,
    of: &GarbledSource<'_, A, A>,
    files: &mut F,
) -> Result<Vec<u8, A>, Fault>
    requires digest { of.now.digest.now ≡ sha256 (canonical_text of.now.circuit.now) }
    requires fits { FitsCircuit of.now.circuit.now of.now.garbling.now }
    ensures written { IfOk result (λ lines. (n : List ℕ) → IfSome (F.bytes files.old n)
        (λ _. HasWritten (garbled_file (honest_parts_with of.now.version of.now.circuit.now
        of.now.garbling.now of.now.offset))
        (F.bytes files.new (string_bytes order.now.out)) lines.items)) }
    ensures fault { IfErr result IsUnwritten }
    ensures cause { IfErr result (HasWriteCause (F.failures files.old) (F.failures files.new)
        (string_bytes order.now.out)) }
    ensures others { (n : List ℕ) → n ≢ string_bytes order.now.out
        → F.bytes files.new n ≡ F.bytes files.old n }
    ensures unwritten { OnErr result (KeepsFiles (F.bytes files.old) (F.bytes files.new)) }
    ensures apart { OnOk result (string_bytes order.now.out ≢ string_bytes order.now.circuit) }
{
    let room = Vec::with_capacity(alloc, ROOM)?;
    let (out, source) = (order.out.as_str(), order.circuit.as_str());
    let mut sink = files.create(out, source)?;
    let written = write_garbled_file(&mut sink, of, Trailer::Written);
    let count = keep_written(files, out, sink, written)?;
    Ok(wrote_line(room, count))
}
