//! The table.

ghost use Rattle.std.specs.Prelude.{◌≡◌, ◌<◌, ◌≤◌, ◌-◌, ◌++◌, IfOk, Some, length, replicate, slice_get, slice_set, vec_len, vec_capacity};

use std::alloc::{AllocError, Allocator};
use std::marker::Model;

/// How many entries are filled at once.
const STRETCH: usize = 256;

/// This many entries, each of one value until it is set. The memory for all is taken at the opening, but written only
/// as far as entries are set: so a page of it is first touched by whoever sets an entry there, and not by the opening
/// thread. No call but [`Table::open`] allocates.
#[derive(Drop)]
pub struct Table<T: Copy, A: Allocator> {
    // The first entries, as far as they are filled.
    filled: Vec<T, A>,
    // What each entry after them is.
    unset: T,
    len: usize,
}

impl<T: Copy, A: Allocator> Model for Table<T, A> {
    ghost use Rattle.std.specs.Prelude.{◌≤◌, ◌-◌, ◌++◌, List, replicate, vec_len, vec_capacity};

    ghost Value = { List T };

    ghost view = { λ t. t.filled.items ++ replicate (t.len - vec_len t.filled) t.unset };

    ghost invariant = { λ t. (vec_len t.filled ≤ t.len) × (t.len ≤ vec_capacity t.filled) };
}

impl<T: Copy, A: Allocator> Table<T, A> {
    /// This many entries of one value. It allocates all memory that is needed, once.
    pub fn open(alloc: A, unset: T, len: u32) -> Result<Table<T, A>, AllocError>
        ensures { IfOk result (λ t. t ≡ replicate len unset) }
    {
        Ok(Table {
            filled: Vec::with_capacity(alloc, len as usize)?,
            unset,
            len: len as usize,
        })
    }

    /// An entry. The caller ensures that there is one at this place.
    #[inline]
    pub fn get(&self, i: u32) -> T
        requires { i < length self.now }
        ensures { slice_get self.now i ≡ Some result }
    {
        match self.filled.get(i as usize) {
            Some(entry) => *entry,
            None => self.unset,
        }
    }

    /// Sets an entry. The caller ensures that there is one at this place.
    #[inline]
    pub fn set(&mut self, i: u32, entry: T)
        requires { i < length self.old }
        ensures { self.new ≡ slice_set self.old i entry }
    {
        let i = i as usize;
        if i >= self.filled.len() {
            let end = i.saturating_add(STRETCH).min(self.len);
            fill(&mut self.filled, self.unset, end);
        }
        self.filled[i] = entry;
    }

    /// All entries.
    pub fn into_entries(self) -> Vec<T, A>
        ensures { result.items ≡ self }
    {
        let Table {
            mut filled,
            unset,
            len,
        } = self;
        fill(&mut filled, unset, len);
        filled
    }
}

/// Fills a vector with a value up to a length. The caller ensures that it has room for it.
fn fill<T: Copy, A: Allocator>(items: &mut Vec<T, A>, value: T, len: usize)
    requires more { vec_len items.old ≤ len }
    requires room { len ≤ vec_capacity items.old }
    ensures items { items.new.items ≡ items.old.items ++ replicate (len - vec_len items.old) value }
    ensures len { vec_len items.new ≡ len }
    ensures room { vec_capacity items.old ≤ vec_capacity items.new }
{
    let _filled = items.resize(len, value);
}
