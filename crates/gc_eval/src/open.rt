//! Opening and closing a board.

ghost use Rattle.std.specs.Prelude.{◌≡◌, ℕ, ◌+◌, ◌*◌, ◌<◌, ◌≤◌, ◌↔◌, [], length, replicate, IfOk, IfErr, IsOk, All};
ghost use Rattle.gc_workers.specs.Counts.{total, only};
ghost use Rattle.gc_gates.specs.Layout.{one_round};
ghost use Rattle.gc_gates.specs.Pairs.{pairs};
ghost use Rattle.gc_gates.specs.Places.{IsGatePlace, IsPlaceInside};
ghost use Rattle.gc_job.specs.ActiveLabels.{gates_of};
ghost use Rattle.gc_eval.specs.Seats.{IsSeatOf, IsNew, view, job_on, seats_on};
ghost use Rattle.gc_eval.specs.Done.{job_in, board_words, state_of};
ghost use Rattle.gc_eval.specs.Views.{occurrences};

use crate::active::Active;
use crate::one_job::OneJob;
use crate::seat::{EvalBoard, EvalSeat};
use gc_gates::{OneRound, Place, Words, close_board, deal_seat, free_words, join_seat, open_board};
use gc_job::{Job, Wiring};
use gc_rounds::Key;
use gc_workers::{CloseRefused, DONE, MAX_WORKERS, OpenFault};
use std::alloc::{AllocError, Allocator};
use std::thread;
use std::thread::Threads;

/// What a board is opened with: the words that its table begins with, and the tables of its job's circuit.
#[derive(Drop)]
struct BoardTables<'c, B: Allocator, C: Allocator> {
    words: Vec<u64, B>,
    wiring: Wiring<'c, B, C>,
}

/// This number of new seats, out of a place that stands for them all.
fn deal_all<A: Allocator, B: Allocator, C: Allocator>(
    words: &Words<OneJob<A, C>, OneRound>,
    first: Place<OneJob<A, C>>,
    count: u32,
    mut seats: Vec<EvalSeat<A, C>, B>,
) -> Result<Vec<EvalSeat<A, C>, B>, OpenFault>
    requires first { IsPlaceInside one_round gates_of words.now.table_id words.now.key first 0
        × IsNew first.me.0 × (first.me.1 ≡ []) × (first.me.0.seats ≡ count) }
    requires some { 0 < count }
    requires none { seats.items ≡ [] }
    ensures { IfOk result (λ v. (length v.items ≡ count)
        × All (λ s. IsPlaceInside one_round gates_of words.now.table_id words.now.key s.place 0
        × IsNew s.place.me.0) v.items) }
{
    let mut first = first;
    let mut left = count;
    while left > 1 {
        let place = deal_seat(words, &mut first);
        seats.push(EvalSeat { place, count: 0 })?;
        left -= 1;
    }
    seats.push(EvalSeat {
        place: first,
        count: 0,
    })?;
    Ok(seats)
}

impl<'j, 'c, B: Allocator + Copy, A: Allocator, C: Allocator> EvalBoard<'j, 'c, B, A, C> {
    /// A board for a job, and its seats, which have done nothing. It allocates all memory that the board needs: 46
    /// where there is none for the seats and the tables of the circuit, 49 where there is none for the table of the
    /// shared words. The caller ensures that there are 1 to [`MAX_WORKERS`] seats.
    pub fn open(
        alloc: B,
        job: &'j Job<'c, A, C>,
        seats: u32,
    ) -> Result<(EvalBoard<'j, 'c, B, A, C>, Vec<EvalSeat<A, C>, B>), OpenFault>
        requires { (0 < seats) × (seats ≤ MAX_WORKERS) }
        ensures job { IfOk result (λ b. job_on b.0 ≡ job.now) }
        ensures count { IfOk result (λ b. (seats_on b.0 ≡ seats) × (length b.1.items ≡ seats)) }
        ensures seats { IfOk result (λ b. All (λ s. IsSeatOf b.0 s × IsNew (view s)) b.1.items) }
    {
        let tables = BoardTables {
            words: free_words(alloc, job.circuit().gates())?,
            wiring: Wiring::of(alloc, job.circuit())?,
        };
        EvalBoard::of_tables(alloc, job, seats, tables)
    }

    /// The same, of these tables.
    fn of_tables(
        alloc: B,
        job: &'j Job<'c, A, C>,
        seats: u32,
        tables: BoardTables<'c, B, C>,
    ) -> Result<(EvalBoard<'j, 'c, B, A, C>, Vec<EvalSeat<A, C>, B>), OpenFault>
        requires few { (0 < seats) × (seats ≤ MAX_WORKERS) }
        requires words { tables.words.items ≡ replicate (3 * gates_of job.now + 1) 0 }
        requires wiring { tables.wiring ≡ job.now.circuit }
        ensures job { IfOk result (λ b. job_on b.0 ≡ job.now) }
        ensures count { IfOk result (λ b. (seats_on b.0 ≡ seats) × (length b.1.items ≡ seats)) }
        ensures seats { IfOk result (λ b. All (λ s. IsSeatOf b.0 s × IsNew (view s)) b.1.items) }
    {
        let BoardTables { words, wiring } = tables;
        let key = Key {
            jobs: 1,
            seats,
            about: OneJob { facts: job.facts() },
        };
        let room = Vec::with_capacity(alloc, seats as usize)?;
        let (table, first) = open_board(alloc, &key, words)?;
        let dealt = deal_all(&table.shared, first, seats, room)?;
        let board = EvalBoard {
            job,
            wiring,
            table,
            seats,
        };
        Ok((board, dealt))
    }
}

impl<'j, 'c, B: Allocator + Copy + Send + Sync, A: Allocator, C: Allocator + Sync> EvalBoard<
    'j,
    'c,
    B,
    A,
    C,
> {
    /// The same as [`EvalBoard::open`], by two threads where another can be started.
    pub(crate) fn open_by_two<R: Threads>(
        rt: &R,
        alloc: B,
        job: &'j Job<'c, A, C>,
        seats: u32,
    ) -> Result<(EvalBoard<'j, 'c, B, A, C>, Vec<EvalSeat<A, C>, B>), OpenFault>
        requires { (0 < seats) × (seats ≤ MAX_WORKERS) }
        ensures job { IfOk result (λ b. job_on b.0 ≡ job.now) }
        ensures count { IfOk result (λ b. (seats_on b.0 ≡ seats) × (length b.1.items ≡ seats)) }
        ensures seats { IfOk result (λ b. All (λ s. IsSeatOf b.0 s × IsNew (view s)) b.1.items) }
    {
        let circuit = job.circuit();
        let gates = circuit.gates();
        let (words, wiring) = thread::join(
            rt,
            || -> Result<Vec<u64, B>, AllocError>
                ensures { IfOk result (λ words. words.items ≡ replicate (3 * gates + 1) 0) }
            { free_words(alloc, gates) },
            || -> Result<Wiring<'_, B, C>, AllocError>
                ensures { IfOk result (λ wiring. wiring ≡ circuit.entry.now) }
            { Wiring::of(alloc, circuit) },
        );
        let tables = BoardTables {
            words: words?,
            wiring: wiring?,
        };
        EvalBoard::of_tables(alloc, job, seats, tables)
    }
}

impl<'j, 'c, B: Allocator, A: Allocator, C: Allocator> EvalBoard<'j, 'c, B, A, C> {
    /// Ends the board, exactly where all its seats are there: else 47, with all that was passed. The made lists of the
    /// seats, taken together, are the gates that are done, each once. It doesn't allocate. The caller ensures that the
    /// seats are this board's.
    pub fn close(
        self,
        seats: Vec<EvalSeat<A, C>, B>,
    ) -> Result<
        Active<'j, 'c, B, A, C>,
        CloseRefused<EvalBoard<'j, 'c, B, A, C>, Vec<EvalSeat<A, C>, B>>,
    >
        requires { All (IsSeatOf self) seats.items }
        ensures exact { IsOk result ↔ (length seats.items ≡ seats_on self.entry) }
        ensures job { IfOk result (λ a. job_in a ≡ job_on self.entry) }
        ensures made { IfOk result (λ a. (g : ℕ)
            → total (λ s. occurrences g (view s).inner.made) seats.items
            ≡ only DONE (state_of (board_words a) g)) }
        // They made no gate in another round.
        ensures only_here { IfOk result (λ _. (r g : ℕ) → 0 < r
            → total (λ s. pairs r g (view s).inner.made) seats.items ≡ 0) }
        ensures err { IfErr result (λ r. (r.board ≡ self.entry) × (r.seats ≡ seats)) }
    {
        if seats.len() != self.seats as usize {
            return Err(CloseRefused { board: self, seats });
        }
        let EvalBoard {
            job,
            wiring,
            table,
            seats: _,
        } = self;
        let whole = gather(&table.shared, seats);
        let closed = close_board(table, whole);
        Ok(Active {
            job,
            wiring,
            closed,
        })
    }
}

/// All seats joined in one.
fn gather<A: Allocator, B: Allocator, C: Allocator>(
    words: &Words<OneJob<A, C>, OneRound>,
    mut seats: Vec<EvalSeat<A, C>, B>,
) -> Place<OneJob<A, C>>
    requires own { All (λ s. IsPlaceInside one_round gates_of words.now.table_id
        words.now.key s.place 0) seats.items }
    requires some { 0 < length seats.items }
    ensures at { IsGatePlace one_round gates_of words.now.table_id words.now.key result }
    ensures seats { result.me.0.seats ≡ length seats.items }
    ensures made { (r g : ℕ) → pairs r g result.me.0.inner.made
        ≡ total (λ s. pairs r g (view s).inner.made) seats.items }
{
    let Some(
        EvalSeat {
            place: mut whole,
            count: _,
        },
    ) = seats.pop()
    else {
        unreachable!()
    };
    while let Some(EvalSeat { place, count: _ }) = seats.pop() {
        join_seat(words, &mut whole, place);
    }
    whole
}
