//! The command `stats`: the numbers of a circuit's gates, its depths, and the bytes of its garbled files.

ghost use Rattle.std.specs.Prelude.{◌≡◌, ◌++◌, ℕ, List, IfOk, IfErr, IfSome, OnOk};
ghost use Rattle.gc_command.specs.Fault.{HasReadCause};
ghost use Rattle.gc_command.specs.Stats.{AnswersStats, HasStatsFault, depth_lines, gate_lines, level_width, size_lines, stats_lines, width_line};

use crate::circuit_file::read_circuit;
use crate::fault::Fault;
use crate::lines::push_count;
use gc_audit::{Stats, stats as stats_of};
use gc_disk::Files;
use std::alloc::{AllocError, Allocator};

/// Reads the circuit of a file, and returns the lines of its statistics.
#[inline(never)]
pub fn stats<A: Allocator + Copy, F: Files>(
    alloc: A,
    circuit: &str,
    files: &mut F,
) -> Result<Vec<u8, A>, Fault>
    ensures answers { IfOk result (λ lines. IfSome (F.bytes files.old circuit.now)
        (λ bytes. AnswersStats bytes lines.items)) }
    ensures fault { IfErr result (λ fault. IfSome (F.bytes files.old circuit.now)
        (λ bytes. HasStatsFault bytes fault)) }
    ensures cause { IfErr result
        (HasReadCause (F.failures files.old) (F.failures files.new) circuit.now) }
    ensures same { (name : List ℕ) → F.bytes files.new name ≡ F.bytes files.old name }
{
    let circuit = read_circuit(alloc, circuit, files)?;
    let stats = stats_of(alloc, &circuit)?;
    Ok(stats_lines(alloc, &stats)?)
}

/// How many AND gates there are for each AND depth, rounded down; 0 where there are none.
#[tactic(auto, unfolding(crate::specs::Stats::level_width))]
fn level_width(stats: &Stats) -> u64
    ensures { result ≡ level_width stats.now }
{
    if stats.and_depth == 0 {
        0
    } else {
        u64::from(stats.and / stats.and_depth)
    }
}

/// The lines of a circuit's statistics.
fn stats_lines<A: Allocator>(alloc: A, stats: &Stats) -> Result<Vec<u8, A>, AllocError>
    ensures { IfOk result (λ lines. lines.items ≡ stats_lines stats.now) }
{
    let mut lines = Vec::new(alloc);
    push_gates(&mut lines, stats)?;
    push_depths(&mut lines, stats)?;
    push_width(&mut lines, stats)?;
    push_sizes(&mut lines, stats)?;
    Ok(lines)
}

/// Adds the lines of how many gates there are of each operation.
#[tactic(auto, unfolding(crate::specs::Stats::gate_lines))]
fn push_gates<A: Allocator>(lines: &mut Vec<u8, A>, stats: &Stats) -> Result<(), AllocError>
    ensures { OnOk result (lines.new.items ≡ lines.old.items ++ gate_lines stats.now) }
{
    push_count(lines, "xor", u64::from(stats.xor))?;
    push_count(lines, "and", u64::from(stats.and))?;
    push_count(lines, "inv", u64::from(stats.inv))?;
    push_count(lines, "eq", u64::from(stats.eq))?;
    push_count(lines, "eqw", u64::from(stats.eqw))
}

/// Adds the lines of the depths.
#[tactic(auto, unfolding(crate::specs::Stats::depth_lines))]
fn push_depths<A: Allocator>(lines: &mut Vec<u8, A>, stats: &Stats) -> Result<(), AllocError>
    ensures { OnOk result (lines.new.items ≡ lines.old.items ++ depth_lines stats.now) }
{
    push_count(lines, "depth", u64::from(stats.depth))?;
    push_count(lines, "and_depth", u64::from(stats.and_depth))
}

/// Adds the line of how many AND gates there are for each AND depth.
#[tactic(auto, unfolding(crate::specs::Stats::width_line))]
fn push_width<A: Allocator>(lines: &mut Vec<u8, A>, stats: &Stats) -> Result<(), AllocError>
    ensures { OnOk result (lines.new.items ≡ lines.old.items ++ width_line stats.now) }
{
    push_count(lines, "level_width", level_width(stats))
}

/// Adds the lines of the gates that nothing reads, and of the sizes of garbled files.
#[tactic(auto, unfolding(crate::specs::Stats::size_lines))]
fn push_sizes<A: Allocator>(lines: &mut Vec<u8, A>, stats: &Stats) -> Result<(), AllocError>
    ensures { OnOk result (lines.new.items ≡ lines.old.items ++ size_lines stats.now) }
{
    push_count(lines, "unread", u64::from(stats.unread))?;
    push_count(lines, "garbled1", stats.garbled1)?;
    push_count(lines, "garbled2", stats.garbled2)
}
