//! Opening and closing banks.

ghost use Rattle.std.specs.Prelude.{◌≡◌, ℕ, ◌<◌, ◌≤◌, ◌↔◌, ◌-◌, ◌^◌, [], length, map, min, sum, IfOk, IfErr, IsOk, IsTrue, All};
ghost use Rattle.gc_workers.specs.Counts.{total};
ghost use Rattle.gc_rounds.specs.declared.view.Position.TheVariants.{Outside};
ghost use Rattle.gc_gates.specs.Pairs.{pairs};
ghost use Rattle.gc_gates.specs.Layout.{two_banks};
ghost use Rattle.gc_gates.specs.Places.{IsGatePlace};
ghost use Rattle.gc_bank.specs.Jobs.{AreOnOneCircuit};
ghost use Rattle.gc_bank.specs.Rounds.{gates_of_each};
ghost use Rattle.gc_bank.specs.Seats.{IsSeatOf, IsNew, view, jobs_on, seats_on};

use crate::seat::{BankSeat, Banks};
use crate::series::Series;
use gc_gates::{BankTable, Place, Words, learn_once, open_banks};
use gc_job::{Job, Wiring};
use gc_rounds::{Key, MAX_JOBS, Rule, deal_place, join_place};
use gc_workers::{CloseRefused, MAX_WORKERS, OpenFault};
use std::alloc::{AllocError, Allocator};

/// This number of new seats, out of a place that stands for them all.
fn deal_all<B: Allocator, A: Allocator, C: Allocator>(
    words: &Words<Series<B, A, C>, Rule>,
    mut first: Place<Series<B, A, C>>,
    count: u32,
    mut seats: Vec<BankSeat<B, A, C>, B>,
) -> Result<Vec<BankSeat<B, A, C>, B>, OpenFault>
    requires first { IsGatePlace two_banks gates_of_each words.now.table_id words.now.key first
        × IsNew first.me.0 × (first.me.1 ≡ []) × (first.me.0.seats ≡ count) }
    requires some { 0 < count }
    requires none { seats.items ≡ [] }
    ensures { IfOk result (λ v. (length v.items ≡ count)
        × All (λ s. IsGatePlace two_banks gates_of_each words.now.table_id words.now.key s.place
        × IsNew s.place.me.0) v.items) }
{
    let mut left = count;
    while left > 1 {
        let place = deal_place(words, &mut first);
        seats.push(BankSeat {
            place,
            inside: None,
            count: 0,
        })?;
        left -= 1;
    }
    seats.push(BankSeat {
        place: first,
        inside: None,
        count: 0,
    })?;
    Ok(seats)
}

/// The jobs as contracts see them.
fn series_of<B: Allocator, A: Allocator, C: Allocator>(
    alloc: B,
    jobs: &[Job<'_, A, C>],
) -> Result<Series<B, A, C>, AllocError>
    ensures { IfOk result (λ series. series ≡ jobs.now) }
{
    let mut series = Vec::new(alloc);
    for job in jobs {
        series.push(job.facts())?;
    }
    Ok(Series { jobs: series })
}

impl<'j, 'c, B: Allocator + Copy, A: Allocator, C: Allocator> Banks<'j, 'c, B, A, C> {
    /// Banks for a list of jobs, bank 0 open in round 0 and bank 1 open in round 1 (sealed where there is one job), and
    /// their seats, which are outside and have done nothing. It allocates all memory that the banks need: 46 where
    /// there is none for the seats and the tables of the circuit, 49 where there is none for the table of the shared
    /// words. The caller ensures that there are 1 to [`MAX_JOBS`] jobs, all on one circuit
    /// ([`one_circuit`](crate::one_circuit) is the test), and 1 to [`MAX_WORKERS`] seats.
    pub fn open(
        alloc: B,
        jobs: &'j [Job<'c, A, C>],
        seats: u32,
    ) -> Result<(Banks<'j, 'c, B, A, C>, Vec<BankSeat<B, A, C>, B>), OpenFault>
        requires jobs { (0 < length jobs.now) × (length jobs.now ≤ MAX_JOBS) }
        requires circuit { AreOnOneCircuit jobs.now }
        requires seats { (0 < seats) × (seats ≤ MAX_WORKERS) }
        ensures jobs { IfOk result (λ b. jobs_on b.0 ≡ jobs.now) }
        ensures count { IfOk result (λ b. (seats_on b.0 ≡ seats) × (length b.1.items ≡ seats)) }
        ensures seats { IfOk result (λ b. All (λ s. IsSeatOf b.0 s × IsNew (view s)) b.1.items) }
    {
        let circuit = jobs[0].circuit();
        let room = Vec::with_capacity(alloc, seats as usize)?;
        let wiring = Wiring::of(alloc, circuit)?;
        let key = Key {
            jobs: jobs.len() as u32,
            seats,
            about: series_of(alloc, jobs)?,
        };
        let (table, first) = open_banks(alloc, &key, circuit.gates())?;
        let dealt = deal_all(&table.shared, first, seats, room)?;
        let banks = Banks {
            jobs,
            wiring,
            board: BankTable { table },
            seats,
        };
        Ok((banks, dealt))
    }
}

impl<'j, 'c, B: Allocator, A: Allocator, C: Allocator> Banks<'j, 'c, B, A, C> {
    /// Joins all seats in one, which shows that they made each gate at most once in each round.
    fn learn_all(&self, seats: Vec<BankSeat<B, A, C>, B>)
        requires own { All (IsSeatOf self.now) seats.items }
        requires outside { All (λ s. (view s).position ≡ Outside) seats.items }
        requires all { length seats.items ≡ seats_on self.now }
        ensures { (r g : ℕ) → total (λ s. pairs r g (view s).inner.made) seats.items ≤ 1 }
    {
        let words = &self.board.table.shared;
        let mut whole = gather(words, seats);
        learn_once(words, &mut whole);
    }

    /// Ends the banks, exactly where all their seats are there and outside: else 47, with all that was passed. Returns
    /// how many gates the seats made in all rounds, each at most once in each round (it stays at `u64::MAX`, which no
    /// banks reach). It doesn't allocate. The caller ensures that the seats are these banks'.
    pub fn close(
        self,
        seats: Vec<BankSeat<B, A, C>, B>,
    ) -> Result<u64, CloseRefused<Banks<'j, 'c, B, A, C>, Vec<BankSeat<B, A, C>, B>>>
        requires { All (IsSeatOf self) seats.items }
        ensures exact { IsOk result
            ↔ ((length seats.items ≡ seats_on self.entry)
            × All (λ s. (view s).position ≡ Outside) seats.items) }
        ensures count { IfOk result
            (λ n. n ≡ min (total (λ s. length (view s).inner.made) seats.items) (2 ^ 64 - 1)) }
        ensures once { IfOk result
            (λ _. (r g : ℕ) → total (λ s. pairs r g (view s).inner.made) seats.items ≤ 1) }
        ensures err { IfErr result (λ r. (r.board ≡ self.entry) × (r.seats ≡ seats)) }
    {
        if seats.len() != self.seats as usize || !are_outside(&seats) {
            return Err(CloseRefused { board: self, seats });
        }
        let made = made_by(&seats);
        self.learn_all(seats);
        Ok(made)
    }
}

/// Whether no seat is inside a round.
fn are_outside<B: Allocator, A: Allocator, C: Allocator>(seats: &[BankSeat<B, A, C>]) -> bool
    ensures { IsTrue result ↔ All (λ s. (view s).position ≡ Outside) seats.now }
{
    for seat in seats {
        if seat.inside.is_some() {
            return false;
        }
    }
    true
}

/// How many gates the seats made.
fn made_by<B: Allocator, A: Allocator, C: Allocator>(seats: &[BankSeat<B, A, C>]) -> u64
    ensures { result ≡ min (total (λ s. length (view s).inner.made) seats.now) (2 ^ 64 - 1) }
{
    let mut made = 0u64;
    for seat in seats {
        made = made.saturating_add(seat.count);
    }
    made
}

/// All seats joined in one.
fn gather<B: Allocator, A: Allocator, C: Allocator>(
    words: &Words<Series<B, A, C>, Rule>,
    mut seats: Vec<BankSeat<B, A, C>, B>,
) -> Place<Series<B, A, C>>
    requires own { All
        (λ s. IsGatePlace two_banks gates_of_each words.now.table_id words.now.key s.place)
        seats.items }
    requires outside { All (λ s. (view s).position ≡ Outside) seats.items }
    requires some { 0 < length seats.items }
    ensures at { IsGatePlace two_banks gates_of_each words.now.table_id words.now.key result }
    ensures seats { result.me.0.seats ≡ length seats.items }
    ensures made { (r g : ℕ) → pairs r g result.me.0.inner.made
        ≡ total (λ s. pairs r g (view s).inner.made) seats.items }
{
    let Some(last) = seats.pop() else {
        unreachable!()
    };
    let mut whole = last.place;
    while let Some(seat) = seats.pop() {
        join_place(words, &mut whole, seat.place);
    }
    whole
}
