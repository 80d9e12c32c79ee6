//! The store: the progress of a garbling, and the tallies of those who work at it.

ghost use Rattle.std.specs.Prelude.{◌≡◌, ◌↔◌, ◌+◌, ℕ, IsTrue, IfOk, IfErr, OnOk, OnErr, count_by};
ghost use Rattle.gc_half.specs.Garbling.{IsGarbled};
ghost use Rattle.gc_store.specs.Content.{is_finished, AllFinished, IsClaimed};
ghost use Rattle.gc_store.specs.Account.{IsLawfulAccount, IsForStore, IsOpened};
ghost use Rattle.gc_workers.specs.declared.TheConstants.{MAX_WORKERS};
ghost use Rattle.gc_store.specs.Step.{Claims, ClaimsSome, Finishes, Deals, Settles, ReopensClaimed};

use crate::batch::Batch;
use crate::partial::{Opening, PartialGarbling};
use crate::refusal::Refused;
use crate::tally::{Tally, TallyMissing, add_up};
use crate::task::{Sealed, Task};
use gc_circuit::{Circuit, Memory};
use gc_half::Garbling;
use gc_label::Seed;
use gc_workers::MAX_WORKERS;
use std::alloc::{Allocator, Global};
use std::marker::Model;
use std::sync::ledger::{Blank, Book, Ledger, Share};
use std::thread::Threads;

/// The gates of a circuit under a seed, and how far each is: free, claimed, or finished with its zero label
/// and its rows. What it keeps of a finished gate is the half-gate garbling of that gate.
///
/// The ledger `L` ties the store to the tallies that it deals, which are its own by their type: what they count is
/// the number of finished gates.
///
/// [`Store::open`] takes all its memory, and no later call takes any.
#[derive(Drop)]
pub struct Store<L: Ledger, A: Allocator = Global> {
    progress: PartialGarbling<A>,
    tallies: u32,
    book: Book<L>,
    // The shares of the tallies that were not dealt, each of nothing.
    rest: Share<L>,
}

impl<L: Ledger, A: Allocator> Model for Store<L, A> {
    ghost use Rattle.std.specs.Prelude.{◌≡◌, ◌+◌, count_by};
    ghost use Rattle.gc_store.specs.Account.{Account};
    ghost use Rattle.gc_store.specs.Content.{is_finished};
    ghost use Rattle.gc_workers.specs.declared.TheConstants.{MAX_WORKERS};

    ghost Value = { Account };

    ghost view = { λ s. record { content = s.progress; tallies = s.tallies } };

    ghost invariant = { λ s. (s.book.total ≡ count_by is_finished s.progress.states)
        × (s.rest.parts + s.tallies ≡ MAX_WORKERS) × (s.rest.amount ≡ 0)
        × (L.parts ≡ MAX_WORKERS) };
}

impl<L: Ledger, A: Allocator> Store<L, A> {
    /// A store where every gate is free, which begins the ledger.
    fn begin(ledger: Blank, progress: PartialGarbling<A>) -> Store<L, A>
        requires ledger { IsForStore L.name L.parts ledger }
        requires none { count_by is_finished progress.states ≡ 0 }
        ensures { (result.content ≡ progress) × (result.tallies ≡ 0) }
    {
        let (book, rest) = ledger.open::<L>();
        Store {
            progress,
            tallies: 0,
            book,
            rest,
        }
    }
}

impl<L: Ledger, A: Allocator + Copy> Store<L, A> {
    /// A store of this circuit and seed with every gate free, which begins the ledger. It allocates all memory that the
    /// store needs. The caller ensures that the ledger is that of `L`, with [`MAX_WORKERS`] parts.
    pub fn open(
        alloc: A,
        ledger: Blank,
        circuit: Circuit<A>,
        seed: Seed,
    ) -> Result<Store<L, A>, Memory>
        requires { IsForStore L.name L.parts ledger }
        ensures { IfOk result (IsOpened circuit seed) }
    {
        Ok(Store::begin(ledger, PartialGarbling::open(alloc, circuit, seed)?))
    }
}

impl<L: Ledger, A: Allocator + Copy + Send + Sync> Store<L, A> {
    /// A store of a copy of the circuit, else as [`Store::open`] opens one. It is opened by threads, where they can be
    /// started: by two, or by four where four are asked for.
    pub fn open_by<C: Allocator + Sync, R: Threads + Sync>(
        rt: &R,
        alloc: A,
        ledger: Blank,
        opening: &Opening<'_, C>,
    ) -> Result<Store<L, A>, Memory>
        requires { IsForStore L.name L.parts ledger }
        ensures { IfOk result (IsOpened opening.now.circuit.now opening.now.seed) }
    {
        let progress = PartialGarbling::open_by(rt, alloc, opening)?;
        Ok(Store::begin(ledger, progress))
    }
}

impl<L: Ledger, A: Allocator> Store<L, A> {
    /// How many gates are finished.
    pub fn finished(&self) -> u32
        ensures count { result ≡ count_by is_finished self.now.content.states }
        ensures lawful { IsLawfulAccount self.now }
    {
        self.progress.finished()
    }

    /// Whether every gate is finished.
    pub fn is_complete(&self) -> bool
        ensures complete { IsTrue result ↔ AllFinished self.now.content }
        ensures lawful { IsLawfulAccount self.now }
    {
        self.progress.is_complete()
    }

    /// Whether this is the store of this circuit and this seed.
    pub fn is_for<C: Allocator>(&self, circuit: &Circuit<C>, seed: &Seed) -> bool
        ensures { IsTrue result ↔ (self.now.content.circuit ≡ circuit.now)
            × (self.now.content.seed ≡ seed.now) }
    {
        self.progress.is_for(circuit, seed)
    }

    /// Deals a new tally, or None where [`MAX_WORKERS`] were dealt.
    pub fn tally(&mut self) -> Option<Tally<L>>
        ensures { Deals self.old result self.new }
    {
        if self.tallies == MAX_WORKERS {
            return None;
        }
        let share = self.rest.split_off(1, 0);
        self.tallies += 1;
        Some(Tally::new(share))
    }

    /// Claims a ready gate and returns its task; or None, exactly where no gate is ready.
    #[inline(always)]
    pub fn claim(&mut self) -> Option<Task>
        ensures step { Claims self.old.content result self.new.content }
        ensures tallies { self.new.tallies ≡ self.old.tallies }
    {
        self.progress.claim(0)
    }

    /// Claims ready gates, and puts their tasks into the batch, until it is full or no gate is ready. Returns how many
    /// this call claimed.
    pub fn claim_some(&mut self, batch: &mut Batch) -> u32
        ensures step { ClaimsSome self.old.content batch.old result self.new.content batch.new }
        ensures tallies { self.new.tallies ≡ self.old.tallies }
    {
        self.claim_from(0, batch)
    }

    /// The same. It looks for ready gates from the gate `from` on, and then from the first on.
    pub(crate) fn claim_from(&mut self, from: u32, batch: &mut Batch) -> u32
        ensures step { ClaimsSome self.old.content batch.old result self.new.content batch.new }
        ensures tallies { self.new.tallies ≡ self.old.tallies }
    {
        self.progress.claim_some(from, batch)
    }

    /// Makes each claimed gate free again. Returns how many they were.
    pub fn reopen(&mut self) -> u32
        ensures step { ReopensClaimed self.old.content result self.new.content }
        ensures tallies { self.new.tallies ≡ self.old.tallies }
    {
        self.progress.reopen()
    }

    /// Whether a gate is claimed.
    pub(crate) fn has_claimed(&self) -> bool
        ensures { IsTrue result ↔ ((i : ℕ) × IsClaimed self.now.content i) }
    {
        self.progress.has_claimed()
    }

    /// Takes a sealed task back, and raises the tally by one. Returns whether the store is now complete.
    ///
    /// It refuses a task whose gate isn't claimed, and else one that isn't the store's own task for its gate.
    /// A refusal changes nothing.
    // A refusal is so large that returning it costs more than the work where the call is not inlined.
    #[inline(always)]
    pub fn finish(&mut self, sealed: Sealed, tally: &mut Tally<L>) -> Result<bool, Refused>
        ensures step { Finishes self.old.content sealed result self.new.content }
        ensures tallies { self.new.tallies ≡ self.old.tallies }
        ensures raised { OnOk result (tally.new ≡ tally.old + 1) }
        ensures kept { OnErr result (tally.new ≡ tally.old) }
    {
        // The finished gates fit in a u32, so there is room for one more.
        self.progress.law_few_finished();
        let complete = self.progress.finish(sealed)?;
        tally.raise(&mut self.book);
        Ok(complete)
    }

    /// The sum of the tallies, which is the number of finished gates, where all the tallies that were dealt are
    /// there. Nothing changes.
    pub fn settle<C: Allocator>(
        &mut self,
        tallies: &mut Vec<Tally<L>, C>,
    ) -> Result<u64, TallyMissing>
        ensures answer { Settles self.old tallies.old.items result }
        ensures same { (self.new ≡ self.old) × (tallies.new.items ≡ tallies.old.items) }
    {
        if tallies.len() < self.tallies as usize {
            return Err(TallyMissing);
        }
        // The finished gates fit in a u32, and the tallies add up to them.
        self.progress.law_few_finished();
        let sum = add_up(&mut self.book, &mut self.rest, tallies.as_mut_slice(), 0);
        Ok(sum)
    }

    /// The garbling, or the same store where a gate isn't finished.
    pub fn into_garbling(self) -> Result<Garbling<A>, Store<L, A>>
        ensures complete { IfOk result (λ garbling.
            AllFinished self.content × IsGarbled self.content.circuit self.content.seed garbling) }
        ensures incomplete { IfErr result (λ store. (¬ AllFinished self.content) × (store ≡ self)) }
    {
        let Store {
            progress,
            tallies,
            book,
            rest,
        } = self;
        match progress.into_garbling() {
            Ok(garbling) => Ok(garbling),
            Err(progress) => Err(Store {
                progress,
                tallies,
                book,
                rest,
            }),
        }
    }
}
