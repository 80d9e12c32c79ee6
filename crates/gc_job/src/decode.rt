//! Decoding the active labels of the output wires.

ghost use Rattle.std.specs.Prelude.{◌≡◌, ◌↔◌, ◌<◌, ◌≤◌, ◌+◌, ◌^◌, ℕ, List, length, slice_get, slice_index, Some, IsTrue, IfOk, IfNone, IfSome, if◌then◌else◌};
ghost use Rattle.std.specs.Result.{result_map_both};
ghost use Rattle.gc_netlist.specs.Circuit.{output_wires};
ghost use Rattle.gc_half.specs.Hash.{hash as hash_of};
ghost use Rattle.gc_half.specs.Entry.{output_tweak};
ghost use Rattle.gc_half.specs.Evaluation.{decode};
ghost use Rattle.gc_job.specs.Evaluate.{IsRecognised, AreRecognised, IsFirstUnknown, IsKnownUntil, IsDecodingOf};

use crate::detached::JobRef;
use crate::fault::EvalFault;
use gc_circuit::Memory;
use gc_file::{EntryPair, Version};
use gc_half::tweak_hash_series;
use gc_label::Label;
use std::alloc::Allocator;

impl<'j, A: Allocator, C: Allocator> JobRef<'j, A, C> {
    /// The output bits that these active labels of the output wires decode to, as [`Job::decode`](crate::Job::decode)
    /// returns them.
    pub(crate) fn decode<B: Allocator + Copy>(
        &self,
        alloc: B,
        labels: &[Label],
    ) -> Result<Vec<bool, B>, EvalFault>
        requires { length labels.now ≡ output_wires self.now.circuit }
        ensures { IsDecodingOf self.now labels.now
            (result_map_both (λ bits. bits.items) (λ fault. fault) result) }
    {
        let garbled = self.garbled();
        let outputs = Outputs {
            and_gates: self.circuit().and_count(),
            entries: garbled.entries(),
            labels,
        };
        if garbled.version() == Version::Two {
            if let Some(output) = outputs.first_unknown() {
                return Err(EvalFault::UnknownOutputLabel { output });
            }
        }
        Ok(decoded(alloc, garbled.decode_bits(), labels)?)
    }
}

/// The bits that these labels decode to: each is the decode bit xor the colour of the label. The caller ensures that
/// there is a decode bit for each label.
pub fn decoded<A: Allocator + Copy>(
    alloc: A,
    decode_bits: &[bool],
    labels: &[Label],
) -> Result<Vec<bool, A>, Memory>
    requires { length decode_bits.now ≡ length labels.now }
    ensures { IfOk result (λ v. v.items ≡ decode decode_bits.now labels.now) }
{
    let mut bits = Vec::with_capacity(alloc, labels.len())?;
    for (i, label) in labels.iter().enumerate() {
        bits.push(decode_bits[i] ^ label.colour())?;
    }
    Ok(bits)
}

/// The number of labels that are hashed at once.
const AT_ONCE: usize = 8;

/// The labels of the output wires, and the entries that are to recognise them. The number of AND gates is part of the
/// tweaks.
#[derive(Drop)]
struct Outputs<'j> {
    and_gates: u32,
    entries: &'j [EntryPair],
    labels: &'j [Label],
}

impl<'j> Outputs<'j> {
    /// The first output whose label the entries do not recognise. All labels are compared before that is decided, and
    /// no branch and no address depends on one.
    fn first_unknown(&self) -> Option<u32>
        requires { length self.now.labels.now < 2 ^ 32 }
        ensures none { IfNone result (AreRecognised self.now.and_gates self.now.entries.now
            self.now.labels.now (length self.now.labels.now)) }
        ensures some { IfSome result (IsFirstUnknown self.now.and_gates self.now.entries.now
            self.now.labels.now) }
    {
        let (mut first, mut known) = (0, 0);
        while first < self.labels.len() {
            let next = (first + AT_ONCE).min(self.labels.len());
            known = self.known_until(first, next, known);
            first = next;
        }
        if known == self.labels.len() {
            None
        } else {
            Some(known as u32)
        }
    }

    /// How many labels before output `end` come before the first of them that the entries do not recognise, where
    /// `known` do so before output `first`. From one to the other there are at most as many as labels that are hashed
    /// at once.
    fn known_until(&self, first: usize, end: usize, mut known: usize) -> usize
        requires order { first ≤ end }
        requires few { end ≤ first + AT_ONCE }
        requires outputs { end ≤ length self.now.labels.now }
        requires labels { length self.now.labels.now < 2 ^ 32 }
        requires known { known ≤ first }
        ensures known { IsKnownUntil self.now.and_gates self.now.entries.now self.now.labels.now
            first known → IsKnownUntil self.now.and_gates self.now.entries.now self.now.labels.now
            end result }
        ensures within { result ≤ end }
    {
        let labels = self.labels;
        let hashes = output_hashes(self.and_gates, first, &labels[first..end]);
        for i in first..end {
            let is_known = is_entry(self.entries, i, labels[i], hashes[i - first]);
            known += usize::from((known == i) & is_known);
        }
        known
    }
}

/// The hash of each of these labels, which are those of the outputs from `first` on; the others are spare.
fn output_hashes(and_gates: u32, first: usize, labels: &[Label]) -> [Label; AT_ONCE]
    requires few { length labels.now ≤ AT_ONCE }
    requires first { first < 2 ^ 32 }
    ensures { (j label : ℕ) → slice_get labels.now j ≡ Some label
        → slice_index result j ≡ hash_of label (output_tweak and_gates (first + j)) }
{
    let mut all = [Label::ZERO; AT_ONCE];
    all[..labels.len()].copy_from_slice(labels);
    tweak_hash_series(all, 2 * u64::from(and_gates) + first as u64)
}

/// Whether this hash of a label of an output is the entry of the label's colour. It is compared with both entries.
fn is_entry(entries: &[EntryPair], output: usize, label: Label, hash: Label) -> bool
    ensures { (and_gates : ℕ) → hash ≡ hash_of label (output_tweak and_gates output)
        → IsTrue result ↔ IsRecognised and_gates entries.now output label }
{
    let Some(pair) = entries.get(output) else {
        return false;
    };
    let (is_zero, is_one) = (hash == pair.entry_zero, hash == pair.entry_one);
    choose(label.colour(), is_one, is_zero)
}

/// The first of two results where this holds, and else the other. It is not inlined: beside the comparisons the
/// compiler would choose the address of an entry by it, and it is a secret.
#[inline(never)]
fn choose(is_so: bool, first: bool, other: bool) -> bool
    ensures { result ≡ if is_so then first else other }
{
    (first & is_so) | (other & !is_so)
}
