//! Pairs of labels, from pieces of their bytes.

ghost use Rattle.std.specs.Prelude.{◌≡◌, ◌+◌, ◌*◌, ◌%◌, ◌<◌, ◌^◌, ℕ, List, [], ◌++◌, length, flat_map, All, OnOk, IfErr};
ghost use Rattle.gc_label.specs.Label.{bytes_of_label};
ghost use Rattle.gc_file.specs.GarbledFile.{IsLabel, IsRowPair, row_bytes};
ghost use Rattle.gc_file.specs.LabelBytes.{bytes_by, IsLabelPair};

use crate::fault::FileFault;
use crate::parts::EntryPair;
use crate::piece::{append, cut, make_room};
use crate::sizes::PAIR;
use arrayvec::ArrayVec;
use gc_half::RowPair;
use gc_label::Label;
use std::alloc::Allocator;
use std::marker::Model;

/// Two labels that follow one another in a file.
pub(crate) trait LabelPair: Copy {
    // The labels of the pair.
    ghost labels: { Self → ℕ × ℕ };

    /// The pair of these labels.
    fn from_labels(first: Label, second: Label) -> Self
        ensures { labels result ≡ (first, second) };
}

impl LabelPair for RowPair {
    ghost labels = { λ row. (row.generator, row.evaluator) };

    fn from_labels(first: Label, second: Label) -> RowPair {
        RowPair {
            generator: first,
            evaluator: second,
        }
    }
}

impl LabelPair for EntryPair {
    ghost labels = { λ pair. (pair.entry_zero, pair.entry_one) };

    fn from_labels(first: Label, second: Label) -> EntryPair {
        EntryPair {
            entry_zero: first,
            entry_one: second,
        }
    }
}

/// The label of 16 bytes.
pub(crate) fn label_from_bytes(bytes: &[u8]) -> Label
    requires { length bytes.now ≡ 16 }
    ensures bytes { bytes_of_label result ≡ bytes.now }
    ensures fits { IsLabel result }
{
    let mut own = [0; 16];
    own.copy_from_slice(bytes);
    Label::from_bytes(own)
}

/// The pair of 32 bytes.
fn pair_from_bytes<P: LabelPair>(bytes: &[u8]) -> P
    requires { length bytes.now ≡ 32 }
    ensures bytes { bytes_by P.labels result ≡ bytes.now }
    ensures labels { IsLabelPair P.labels result }
{
    let (first, second) = bytes.split_at(16);
    P::from_labels(label_from_bytes(first), label_from_bytes(second))
}

/// Reads the row pairs whose bytes these are, 32 bytes each: the generator's row, and then the evaluator's. The caller
/// ensures that there is a place for each.
pub fn read_rows(bytes: &[u8], rows: &mut [RowPair])
    requires { length bytes.now ≡ 32 * length rows.old }
    ensures bytes { flat_map row_bytes rows.new ≡ bytes.now }
    ensures rows { All IsRowPair rows.new }
{
    for i in 0..rows.len() {
        rows[i] = pair_from_bytes(&bytes[PAIR * i..PAIR * i + PAIR]);
    }
}

/// Pushes the pairs whose bytes these are.
fn push_pairs<P: LabelPair, A: Allocator>(
    pairs: &mut Vec<P, A>,
    bytes: &[u8],
) -> Result<(), FileFault>
    requires whole { length bytes.now % 32 ≡ 0 }
    requires labels { All (IsLabelPair P.labels) pairs.old.items }
    ensures bytes { OnOk result (flat_map (bytes_by P.labels) pairs.new.items
        ≡ flat_map (bytes_by P.labels) pairs.old.items ++ bytes.now) }
    ensures labels { All (IsLabelPair P.labels) pairs.new.items }
    ensures memory { IfErr result (λ e. e ≡ FileFault.Memory) }
{
    for i in 0..bytes.len() / PAIR {
        pairs.push(pair_from_bytes(&bytes[PAIR * i..PAIR * i + PAIR]))?;
    }
    Ok(())
}

/// Pairs whose bytes come in pieces. Contracts see their bytes.
#[derive(Drop)]
pub(crate) struct Pairs<P: LabelPair, A: Allocator> {
    pairs: Vec<P, A>,
    // The bytes of a pair that isn't whole.
    partial: ArrayVec<u8, PAIR>,
}

impl<P: LabelPair, A: Allocator> Model for Pairs<P, A> {
    ghost use Rattle.std.specs.Prelude.{◌<◌, ◌++◌, ℕ, List, flat_map, length, All};
    ghost use Rattle.gc_file.specs.LabelBytes.{bytes_by, IsLabelPair};

    ghost Value = { List ℕ };

    ghost view = { λ p. flat_map (bytes_by P.labels) p.pairs.items ++ p.partial.items };

    ghost invariant = { λ p. (length p.partial.items < 32)
        × All (IsLabelPair P.labels) p.pairs.items };
}

impl<P: LabelPair, A: Allocator> Pairs<P, A> {
    /// No pairs.
    pub(crate) fn new(alloc: A) -> Pairs<P, A>
        ensures { result ≡ [] }
    {
        Pairs {
            pairs: Vec::new(alloc),
            partial: ArrayVec::new(),
        }
    }

    /// How many bytes have come.
    pub(crate) fn len(&self) -> usize
        requires { length self.now < 2 ^ 64 }
        ensures { result ≡ length self.now }
    {
        PAIR * self.pairs.len() + self.partial.len()
    }

    /// Adds the next bytes. There will be `most` pairs in all.
    pub(crate) fn add(&mut self, bytes: &[u8], most: usize) -> Result<(), FileFault>
        ensures ok { OnOk result (self.new ≡ self.old ++ bytes.now) }
        ensures memory { IfErr result (λ e. e ≡ FileFault.Memory) }
    {
        make_room(&mut self.pairs, bytes.len().div_ceil(PAIR), most)?;
        let (front, rest) = cut(bytes, PAIR - self.partial.len());
        append(&mut self.partial, front);
        if self.partial.is_full() {
            let pair = pair_from_bytes(self.partial.as_slice());
            self.partial.clear();
            self.pairs.push(pair)?;
        }
        let (whole, last) = rest.split_at(rest.len() - rest.len() % PAIR);
        push_pairs(&mut self.pairs, whole)?;
        append(&mut self.partial, last);
        Ok(())
    }

    /// The pairs, where they are whole.
    pub(crate) fn into_pairs(self) -> Vec<P, A>
        requires { length self % 32 ≡ 0 }
        ensures bytes { flat_map (bytes_by P.labels) result.items ≡ self }
        ensures labels { All (IsLabelPair P.labels) result.items }
    {
        self.pairs
    }
}
