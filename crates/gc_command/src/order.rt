//! The command `order`: writing a circuit with its gates in order of AND depth.

ghost use Rattle.std.specs.Prelude.{◌≡◌, ◌≢◌, ℕ, List, IfOk, IfErr, OnOk, OnErr, IfSome, string_bytes};
ghost use Rattle.gc_netlist.specs.Circuit.{Netlist};
ghost use Rattle.gc_netlist.specs.Canon.{canonical_text};
ghost use Rattle.gc_depth.specs.Order.{IsOrdered};
ghost use Rattle.gc_disk.specs.Files.{HasFailed};
ghost use Rattle.gc_command.specs.Order.{AnswersOrder, HasOrderFault};
ghost use Rattle.gc_command.specs.Wrote.{HasWritten, IsUnwritten, KeepsFiles};
ghost use Rattle.gc_command.specs.Fault.{HasCause, HasWriteCause};

use crate::circuit_file::read_circuit;
use crate::context::Context;
use crate::fault::Fault;
use crate::progress::{Progress, Stage};
use crate::wrote::{ROOM, keep_written, write_bytes, wrote_line};
use gc_circuit::{Circuit, Memory};
use gc_depth::order_by_depth;
use gc_disk::Files;
use gc_order::ByDepthOrder;
use std::alloc::Allocator;

/// Writes the canonical text of the circuit of a file, with its gates in order of AND depth, and returns the line that
/// states its bytes. A file in place of the written one is replaced at once, and stays as it is at a fault.
#[inline(never)]
pub fn order<R, A: Allocator + Copy, F: Files, P: Progress>(
    context: &Context<'_, R, A, P>,
    order: &ByDepthOrder,
    files: &mut F,
) -> Result<Vec<u8, A>, Fault>
    ensures answers { IfOk result
        (λ lines. IfSome (F.bytes files.old (string_bytes order.now.circuit))
        (λ bytes. AnswersOrder bytes (F.bytes files.new (string_bytes order.now.out))
        lines.items)) }
    ensures fault { IfErr result
        (λ fault. IfSome (F.bytes files.old (string_bytes order.now.circuit))
        (λ bytes. HasOrderFault bytes fault)) }
    ensures cause { IfErr result (λ fault. HasCause fault
        (HasFailed (F.failures files.old) (F.failures files.new) (string_bytes order.now.circuit))
        (HasFailed (F.failures files.old) (F.failures files.new) (string_bytes order.now.out))) }
    ensures others { (n : List ℕ) → n ≢ string_bytes order.now.out
        → F.bytes files.new n ≡ F.bytes files.old n }
    ensures unwritten { OnErr result (KeepsFiles (F.bytes files.old) (F.bytes files.new)) }
    ensures apart { OnOk result (string_bytes order.now.out ≢ string_bytes order.now.circuit) }
{
    let alloc = context.alloc;
    context.progress.begin(1, 2, Stage::ReadingCircuit);
    let circuit = read_circuit(alloc, order.circuit.as_str(), files)?;
    context.progress.begin(2, 2, Stage::Ordering);
    let text = ordered_text(alloc, circuit)?;
    write_text(alloc, order, &text, files)
}

/// The canonical text of a circuit with its gates in order of AND depth.
fn ordered_text<A: Allocator + Copy>(alloc: A, circuit: Circuit<A>) -> Result<Vec<u8, A>, Memory>
    ensures { IfOk result (λ text. (ordered : Netlist) × IsOrdered circuit ordered
        × (text.items ≡ canonical_text ordered)) }
{
    let ordered = order_by_depth(alloc, &circuit)?;
    drop(circuit);
    ordered.canon(alloc)
}

/// Writes the file of the ordered circuit, which has this text and is not the circuit's file.
fn write_text<A: Allocator, F: Files>(
    alloc: A,
    order: &ByDepthOrder,
    text: &[u8],
    files: &mut F,
) -> Result<Vec<u8, A>, Fault>
    ensures written { IfOk result (λ lines. (n : List ℕ) → IfSome (F.bytes files.old n)
        (λ _. HasWritten text.now (F.bytes files.new (string_bytes order.now.out))
        lines.items)) }
    ensures fault { IfErr result IsUnwritten }
    ensures cause { IfErr result (HasWriteCause (F.failures files.old) (F.failures files.new)
        (string_bytes order.now.out)) }
    ensures others { (n : List ℕ) → n ≢ string_bytes order.now.out
        → F.bytes files.new n ≡ F.bytes files.old n }
    ensures unwritten { OnErr result (KeepsFiles (F.bytes files.old) (F.bytes files.new)) }
    ensures apart { OnOk result (string_bytes order.now.out ≢ string_bytes order.now.circuit) }
{
    let room = Vec::with_capacity(alloc, ROOM)?;
    let (out, source) = (order.out.as_str(), order.circuit.as_str());
    let mut sink = files.create(out, source)?;
    let written = write_bytes(&mut sink, text);
    let count = keep_written(files, out, sink, written)?;
    Ok(wrote_line(room, count))
}
