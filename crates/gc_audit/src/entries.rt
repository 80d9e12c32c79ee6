//! Comparing entries.

ghost use Rattle.std.specs.Prelude.{◌≡◌, ◌+◌, ◌≤◌, IfNone, IfSome, MatchOption, length, take};
ghost use Rattle.gc_half.specs.Garbling.{FitsCircuit};
ghost use Rattle.gc_file.specs.GarbledFile.{entry_count};
ghost use Rattle.gc_file.specs.Written.{entry_pairs_of};
ghost use Rattle.gc_file.specs.Honest.{version_entries};
ghost use Rattle.gc_audit.specs.Entries.{DifferFirstIn, IsEntryDifference, named};

use crate::reference::Reference;
use gc_file::{EntryPair, Version};
use gc_half::{four_output_entries, output_entry};
use gc_label::Label;
use std::alloc::Allocator;

/// The first entry that differs.
#[derive(Clone, Copy, PartialEq, Eq, Debug)]
pub struct EntryDifference {
    /// The output, counted from 0 over all output wires.
    pub output: u32,
    /// The colour whose entry it is. Entry 0 comes before entry 1.
    pub colour: bool,
}

/// The first of a file's entries that is not the garbling's. A file of version 1 has none. The caller ensures that the
/// garbling fits the circuit, and that there are as many entry pairs as the version asks for.
pub(crate) fn audit_entries<A: Allocator, B: Allocator>(
    of: &Reference<'_, A, B>,
    version: Version,
    filed: &[EntryPair],
) -> Option<EntryDifference>
    requires fits { FitsCircuit of.now.circuit.now of.now.garbling.now }
    requires entries { length filed.now ≡ entry_count version of.now.garbling.now.outputs }
    ensures { let entries = version_entries version of.now.offset of.now.garbling.now in
        MatchOption result (filed.now ≡ entries) (IsEntryDifference filed.now entries) }
{
    match version {
        Version::One => None,
        Version::Two => audit_pairs(of, filed),
    }
}

/// The first of the entries that is not the garbling's. Those of four outputs are hashed at once, and those of the last
/// ones by themselves. The caller ensures that the garbling fits the circuit, and that there is an entry pair for each
/// output.
fn audit_pairs<A: Allocator, B: Allocator>(
    of: &Reference<'_, A, B>,
    entries: &[EntryPair],
) -> Option<EntryDifference>
    requires fits { FitsCircuit of.now.circuit.now of.now.garbling.now }
    requires entries { length entries.now ≡ of.now.garbling.now.outputs }
    ensures { MatchOption result (entries.now ≡ entry_pairs_of of.now.offset of.now.garbling.now)
        (IsEntryDifference entries.now (entry_pairs_of of.now.offset of.now.garbling.now)) }
{
    let fours = of.garbling.outputs() / 4;
    for k in 0..fours {
        if let Some(difference) = audit_four(of, entries, 4 * k) {
            return Some(difference);
        }
    }
    audit_last(of, entries, 4 * fours)
}

/// The first of the entries of four outputs that is not the garbling's, where those before them are.
fn audit_four<A: Allocator, B: Allocator>(
    of: &Reference<'_, A, B>,
    entries: &[EntryPair],
    first: u32,
) -> Option<EntryDifference>
    requires fits { FitsCircuit of.now.circuit.now of.now.garbling.now }
    requires entries { length entries.now ≡ of.now.garbling.now.outputs }
    requires outputs { first + 4 ≤ of.now.garbling.now.outputs }
    requires before { take first entries.now
        ≡ take first (entry_pairs_of of.now.offset of.now.garbling.now) }
    ensures none { IfNone result (take (first + 4) entries.now
        ≡ take (first + 4) (entry_pairs_of of.now.offset of.now.garbling.now)) }
    ensures some { IfSome result
        (IsEntryDifference entries.now (entry_pairs_of of.now.offset of.now.garbling.now)) }
{
    of.circuit.law_lawful();
    let four = four_output_entries(of.circuit, of.garbling, of.offset, first);
    for i in 0..4u32 {
        let output = first + i;
        let pair = entries[output as usize];
        if let Some(colour) = differing_colour(pair, four[i as usize]) {
            return Some(EntryDifference { output, colour });
        }
    }
    None
}

/// The first of the entries from this output on that is not the garbling's, where those before it are.
fn audit_last<A: Allocator, B: Allocator>(
    of: &Reference<'_, A, B>,
    entries: &[EntryPair],
    first: u32,
) -> Option<EntryDifference>
    requires fits { FitsCircuit of.now.circuit.now of.now.garbling.now }
    requires entries { length entries.now ≡ of.now.garbling.now.outputs }
    requires first { first ≤ of.now.garbling.now.outputs }
    requires before { take first entries.now
        ≡ take first (entry_pairs_of of.now.offset of.now.garbling.now) }
    ensures { MatchOption result (entries.now ≡ entry_pairs_of of.now.offset of.now.garbling.now)
        (IsEntryDifference entries.now (entry_pairs_of of.now.offset of.now.garbling.now)) }
{
    for output in first..of.garbling.outputs() {
        let pair = entries[output as usize];
        let entry_zero = output_entry(of.circuit, of.garbling, of.offset, output, false);
        let entry_one = output_entry(of.circuit, of.garbling, of.offset, output, true);
        if let Some(colour) = differing_colour(pair, (entry_zero, entry_one)) {
            return Some(EntryDifference { output, colour });
        }
    }
    None
}

/// The first colour, 0 before 1, whose entry in this pair is not the one that was made.
fn differing_colour(pair: EntryPair, made: (Label, Label)) -> Option<bool>
    ensures { MatchOption result (pair ≡ named made) (DifferFirstIn pair (named made)) }
{
    let (entry_zero, entry_one) = made;
    if pair.entry_zero != entry_zero {
        Some(false)
    } else if pair.entry_one != entry_one {
        Some(true)
    } else {
        None
    }
}
