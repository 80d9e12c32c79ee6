//! What a garbled file holds.

ghost use Rattle.std.specs.Prelude.{◌≡◌};

use crate::parts::{EntryPair, Version};
use gc_half::RowPair;
use std::alloc::{Allocator, Global};
use std::marker::Model;

/// What a garbled file holds.
#[derive(Drop)]
pub struct Garbled<A: Allocator = Global> {
    pub(crate) version: Version,
    pub(crate) digest: [u8; 32],
    pub(crate) rows: Vec<RowPair, A>,
    pub(crate) decode_bits: Vec<bool, A>,
    pub(crate) entries: Vec<EntryPair, A>,
}

impl<A: Allocator> Model for Garbled<A> {
    ghost use Rattle.gc_file.specs.GarbledFile.{GarbledParts};

    ghost Value = { GarbledParts };

    ghost view = { λ g. record {
      version = g.version;
      digest = g.digest;
      rows = g.rows.items;
      decode_bits = g.decode_bits.items;
      entries = g.entries.items;
    } };
}

impl<A: Allocator> Garbled<A> {
    /// The version of the file.
    pub fn version(&self) -> Version
        ensures { result ≡ self.now.version }
    {
        self.version
    }

    /// The digest of the circuit's canonical text.
    pub fn digest(&self) -> [u8; 32]
        ensures { result ≡ self.now.digest }
    {
        self.digest
    }

    /// The row pair of each AND gate, in file order.
    pub fn rows(&self) -> &[RowPair]
        ensures { result.now ≡ self.now.rows }
    {
        &self.rows
    }

    /// The decode bit of each output wire, in order.
    pub fn decode_bits(&self) -> &[bool]
        ensures { result.now ≡ self.now.decode_bits }
    {
        &self.decode_bits
    }

    /// The entry pair of each output wire, in order; none in version 1.
    pub fn entries(&self) -> &[EntryPair]
        ensures { result.now ≡ self.now.entries }
    {
        &self.entries
    }

    /// The row pairs, the decode bits and the entry pairs, which are moved out.
    pub fn into_parts(self) -> (Vec<RowPair, A>, Vec<bool, A>, Vec<EntryPair, A>)
        ensures rows { result.0.items ≡ self.rows }
        ensures decode_bits { result.1.items ≡ self.decode_bits }
        ensures entries { result.2.items ≡ self.entries }
    {
        (self.rows, self.decode_bits, self.entries)
    }
}
