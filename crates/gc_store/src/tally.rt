//! Tallies: how many gates were finished by whom, and the ledger that ties them to their store.

ghost use Rattle.std.specs.Prelude.{◌≡◌, ◌+◌, ◌<◌, ◌≤◌, ◌^◌, codes, length, sum};

use std::error::Error;
use std::fmt;
use std::marker::Model;
use std::sync::ledger::{Book, Ledger, Share};

/// How many sealed tasks were accepted with this tally. Only a store deals tallies, and the ledger `L` says
/// whose it is.
#[derive(Drop)]
pub struct Tally<L: Ledger> {
    count: u64,
    share: Share<L>,
}

impl<L: Ledger> Model for Tally<L> {
    ghost use Rattle.std.specs.Prelude.{◌≡◌, ℕ};

    ghost Value = { ℕ };

    ghost view = { λ t. t.count };

    ghost invariant = { λ t. (t.share.parts ≡ 1) × (t.share.amount ≡ t.count) };
}

impl<L: Ledger> Tally<L> {
    /// A tally of nothing.
    pub(crate) fn new(share: Share<L>) -> Tally<L>
        requires { (share.parts ≡ 1) × (share.amount ≡ 0) }
        ensures { result ≡ 0 }
    {
        Tally { count: 0, share }
    }

    /// Counts one more, in the tally and in the book.
    #[inline]
    pub(crate) fn raise(&mut self, book: &mut Book<L>)
        requires { book.old.total < u64.MAX }
        ensures tally { self.new ≡ self.old + 1 }
        ensures total { book.new.total ≡ book.old.total + 1 }
    {
        book.audit(&mut self.share);
        book.add(&mut self.share, 1);
        self.count += 1;
    }

    /// How many sealed tasks were accepted with this tally.
    pub fn count(&self) -> u64
        ensures { result ≡ self.now }
    {
        self.count
    }
}

/// A tally that the store dealt is missing.
#[derive(Clone, Copy, PartialEq, Eq, Debug)]
pub struct TallyMissing;

impl TallyMissing {
    /// The number of the refusal.
    pub fn code(self) -> u32
        ensures { result ≡ 27 }
    {
        27
    }

    /// Its name.
    pub fn name(self) -> &'static str
        ensures { result.now ≡ codes "TallyMissing" }
    {
        "TallyMissing"
    }
}

impl fmt::Display for TallyMissing {
    ghost use Rattle.std.specs.Prelude.{Some, codes};

    ghost output = { λ _. Some (codes "TallyMissing") };

    fn fmt<W: fmt::Write>(&self, f: &mut fmt::Formatter<W>) -> fmt::Result {
        f.write_str("TallyMissing")
    }
}

impl Error for TallyMissing {}

/// The sum of the tallies and of `before`, the amount of the shares that `seen` holds. With these the tallies
/// have all shares of the book, so the sum is its total.
pub(crate) fn add_up<L: Ledger>(
    book: &mut Book<L>,
    seen: &mut Share<L>,
    tallies: &mut [Tally<L>],
    before: u64,
) -> u64
    requires amount { seen.old.amount ≡ before }
    requires few { seen.old.parts ≤ L.parts }
    requires all { L.parts ≤ seen.old.parts + length tallies.old }
    requires fits { book.old.total < 2 ^ 64 }
    ensures total { result ≡ book.old.total }
    ensures sum { result ≡ before + sum tallies.old }
    ensures exact { seen.old.parts + length tallies.old ≡ L.parts }
    ensures book { book.new.total ≡ book.old.total }
    ensures seen { (seen.new.parts ≡ seen.old.parts) × (seen.new.amount ≡ seen.old.amount) }
    ensures same { tallies.new ≡ tallies.old }
{
    book.audit(seen);
    match tallies.split_first_mut() {
        None => before,
        Some((first, others)) => {
            let Tally { count, share } = first;
            share.give(seen, 1, *count);
            book.audit(seen);
            let total = add_up(book, seen, others, before + *count);
            seen.give(share, 1, *count);
            total
        }
    }
}
