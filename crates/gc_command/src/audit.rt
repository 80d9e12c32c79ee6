//! The command `audit`: whether files are those of a circuit and a seed, and where they first differ.

ghost use Rattle.std.specs.Prelude.{◌≡◌, ◌↔◌, ℕ, List, map, IfOk, IfErr, IsTrue, MatchOption, string_bytes, length};
ghost use Rattle.gc_netlist.specs.Circuit.{and_count};
ghost use Rattle.gc_half.specs.Canonical.{garbling_of};
ghost use Rattle.gc_half.specs.Comparing.{HasLabels, IsComparison};
ghost use Rattle.gc_audit.specs.Garbled.{AreCountsRight, IsPartsAudit};
ghost use Rattle.gc_disk.specs.Files.{GivesFile, HasFailed};
ghost use Rattle.gc_command.specs.SeedText.{IsSeed};
ghost use Rattle.gc_command.specs.Eval.{AreEvalFiles};
ghost use Rattle.gc_command.specs.Audit.{AnswersAudit, HasAuditFault, IsAuditFault};

use crate::audit_lines::audit_lines;
use crate::context::Context;
use crate::digest::with_digest;
use crate::evaluated_files::read_named;
use crate::fault::Fault;
use crate::job::GivenFiles;
use crate::progress::{Progress, Stage};
use gc_audit::{
    ComparedFile, GarbledAudit, PartsAudit, SeedReference, are_counts_right, audit_compared,
};
use gc_circuit::{Circuit, Memory};
use gc_disk::Files;
use gc_file::{Garbled, LabelFile, Version};
use gc_half::{Garbling, Mismatch, RowPair, garble_and_compare, garble_one_thread};
use gc_label::Seed;
use gc_order::AuditOrder;
use gc_work::WorkFault;
use std::alloc::Allocator;
use std::thread::Threads;

/// What an audit finds.
#[derive(Drop)]
pub struct Audited<A: Allocator> {
    /// Whether the garbled file is that of the circuit's garbling under the seed, and each label file the dealer's.
    pub is_honest: bool,
    /// The lines that say what was found.
    pub lines: Vec<u8, A>,
}

/// Compares the garbled file and the label files of these names with what garbling the circuit of a file under a seed
/// gives, and returns what it finds. The files are not trusted. One thread garbles and compares; another may
/// hash meanwhile.
#[inline(never)]
pub fn audit<R: Threads + Sync, A: Allocator + Copy + Send + Sync, F: Files, P: Progress>(
    context: &Context<'_, R, A, P>,
    order: &AuditOrder,
    files: &mut F,
) -> Result<Audited<A>, Fault>
    ensures answers { IfOk result (λ found. AnswersAudit (F.bytes files.old)
        (string_bytes order.now.circuit) (string_bytes order.now.seed)
        (string_bytes order.now.garbled) (map string_bytes order.now.labels.items)
        found.is_honest found.lines.items) }
    ensures fault { IfErr result (HasAuditFault (F.bytes files.old)
        (HasFailed (F.failures files.old) (F.failures files.new)) (string_bytes order.now.circuit)
        (string_bytes order.now.seed) (string_bytes order.now.garbled)
        (map string_bytes order.now.labels.items)) }
    ensures same { (name : List ℕ) → F.bytes files.new name ≡ F.bytes files.old name }
{
    let (rt, alloc) = (context.rt, context.alloc);
    context.progress.begin(1, 3, Stage::ReadingCircuit);
    let bytes = files.read(alloc, order.circuit.as_str())?;
    let text = bytes.as_slice();
    let (circuit, made, digest) = with_digest(
        rt,
        text,
        &mut || -> Result<(Circuit<A>, Input<A>), Fault>
            requires { GivesFile (F.bytes files.now (string_bytes order.now.circuit)) text.now }
        { read_input(context, order, text, files) },
        &|circuit, input| compare_input(context, circuit, input),
    )?;
    drop(bytes);
    let compared = made?;
    let found = garbled_audit(compared.named, digest, compared.parts);
    Ok(audit_lines(alloc, &circuit, &found, &compared)?)
}

/// What is found of a garbled file that names a digest, where the circuit's digest is this, and this is found of the
/// file's parts.
fn garbled_audit(named: [u8; 32], digest: [u8; 32], parts: Option<PartsAudit>) -> GarbledAudit
    ensures digest { IsTrue result.digest ↔ (named ≡ digest) }
    ensures parts { result.parts ≡ parts }
{
    let digest = named == digest;
    GarbledAudit { digest, parts }
}

/// A seed, and the files that are compared.
type Input<A> = (Seed, GivenFiles<A>);

/// Reads the circuit of a text, the seed, the garbled file and the label files, in turn. The caller ensures that the
/// text is that of the circuit's file.
fn read_input<R, A: Allocator + Copy, F: Files, P: Progress>(
    context: &Context<'_, R, A, P>,
    order: &AuditOrder,
    text: &[u8],
    files: &mut F,
) -> Result<(Circuit<A>, Input<A>), Fault>
    requires { GivesFile (F.bytes files.old (string_bytes order.now.circuit)) text.now }
    ensures seed { IfOk result (λ made. IsSeed (string_bytes order.now.seed) made.1.0) }
    ensures read { IfOk result (λ made. AreEvalFiles (F.bytes files.old)
        (string_bytes order.now.circuit) (string_bytes order.now.garbled)
        (map string_bytes order.now.labels.items) made.0 made.1.1.0 made.1.1.1.items) }
    ensures fault { IfErr result (IsAuditFault (F.bytes files.old)
        (HasFailed (F.failures files.old) (F.failures files.new)) (string_bytes order.now.circuit)
        (string_bytes order.now.seed) (string_bytes order.now.garbled)
        (map string_bytes order.now.labels.items)) }
    ensures same { (name : List ℕ) → F.bytes files.new name ≡ F.bytes files.old name }
{
    let alloc = context.alloc;
    let circuit = Circuit::read(alloc, text)?;
    let seed = Seed::from_hex(order.seed.as_str())?;
    context.progress.begin(2, 3, Stage::ReadingFiles);
    let given = read_named(alloc, order.garbled.as_str(), &order.labels, files)?;
    Ok((circuit, (seed, given)))
}

/// What files are compared with, and what is found of the garbled file's parts, before it is known whether the file
/// names the circuit's digest.
#[derive(Drop)]
pub(crate) struct Compared<A: Allocator> {
    pub(crate) seed: Seed,
    pub(crate) version: Version,
    named: [u8; 32],
    pub(crate) labels: Vec<LabelFile<A>, A>,
    pub(crate) garbling: Garbling<A>,
    parts: Option<PartsAudit>,
}

/// Garbles the circuit under the seed, and compares the garbled file with the garbling.
fn compare_input<R, A: Allocator + Copy, P: Progress>(
    context: &Context<'_, R, A, P>,
    circuit: &Circuit<A>,
    input: Input<A>,
) -> Result<Compared<A>, WorkFault>
    ensures seed { IfOk result (λ made. made.seed ≡ input.0) }
    ensures version { IfOk result (λ made. made.version ≡ input.1.0.version) }
    ensures named { IfOk result (λ made. made.named ≡ input.1.0.digest) }
    ensures label_files { IfOk result (λ made. made.labels.items ≡ input.1.1.items) }
    ensures labels { IfOk result (λ made. HasLabels circuit.now input.0 made.garbling) }
    ensures parts { IfOk result (λ made.
        MatchOption made.parts (¬ AreCountsRight circuit.now input.1.0)
        (IsPartsAudit circuit.now (garbling_of circuit.now input.0) input.0 input.1.0)) }
    ensures fault { IfErr result (λ fault. fault ≡ WorkFault.Memory) }
{
    let (seed, (garbled, labels)) = input;
    let (version, named) = (garbled.version(), garbled.digest());
    let gates = circuit.gates();
    context.progress.begin(3, 3, Stage::Garbling { gates });
    let (garbling, parts) = garbling_and_parts(context.alloc, circuit, &seed, garbled)?;
    Ok(Compared {
        seed,
        version,
        named,
        labels,
        garbling,
        parts,
    })
}

/// The garbling of the circuit under the seed, and what comparing a garbled file with it finds, but for the digest.
/// Nothing is found where the file's counts are wrong. Where they are right, its row pairs are compared with the
/// garbling's as these are made, so that both together take hardly more memory than one of them. Else the file is
/// dropped before.
fn garbling_and_parts<A: Allocator + Copy>(
    alloc: A,
    circuit: &Circuit<A>,
    seed: &Seed,
    file: Garbled<A>,
) -> Result<(Garbling<A>, Option<PartsAudit>), WorkFault>
    ensures labels { IfOk result (λ made. HasLabels circuit.now seed.now made.0) }
    ensures parts { IfOk result (λ made. MatchOption made.1 (¬ AreCountsRight circuit.now file)
        (IsPartsAudit circuit.now (garbling_of circuit.now seed.now) seed.now file)) }
    ensures fault { IfErr result (λ fault. fault ≡ WorkFault.Memory) }
{
    circuit.law_lawful();
    if !are_counts_right(circuit, &file) {
        drop(file);
        return Ok((garble_one_thread(alloc, circuit, seed)?, None));
    }
    let version = file.version();
    let (rows, decode_bits, entries) = file.into_parts();
    let (garbling, first) = compare(alloc, circuit, seed, rows)?;
    let of = SeedReference {
        circuit,
        labels: &garbling,
        seed,
    };
    let parts = audit_compared(
        &of,
        &ComparedFile {
            version,
            first,
            decode_bits: &decode_bits,
            entries: &entries,
        },
    );
    Ok((garbling, Some(parts)))
}

/// Garbles the circuit under the seed, and compares the given row pairs with those that it makes. There is one for each
/// AND gate.
fn compare<A: Allocator + Copy>(
    alloc: A,
    circuit: &Circuit<A>,
    seed: &Seed,
    given: Vec<RowPair, A>,
) -> Result<(Garbling<A>, Option<Mismatch>), Memory>
    requires { length given.items ≡ and_count circuit.now }
    ensures labels { IfOk result (λ made. HasLabels circuit.now seed.now made.0) }
    ensures compared { IfOk result
        (λ made. IsComparison circuit.now seed.now given.items made.1) }
{
    circuit.law_lawful();
    garble_and_compare(alloc, circuit, seed, given)
}
