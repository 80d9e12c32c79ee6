//! The word of a bank: how many seats are counted in, the mark of a sealed bank, and the round.

ghost use Rattle.std.specs.Prelude.{◌≡◌, ◌<◌};
ghost use Rattle.gc_rounds.specs.Words.{stamp};

use gc_workers::MAX_WORKERS;

/// The most rounds, each of which has a job.
pub const MAX_JOBS: usize = 65_536;

/// The mark of a sealed bank. The bits below count the seats that are in.
pub const MARK: u64 = 0x1_0000;

/// The lowest bit of the round.
pub const ROUND: u64 = 0x1_0000_0000;

// Each round fits into the bits from its lowest one on,
const _: () = prove!(MAX_JOBS as u64 - 1 <= u64::MAX / ROUND);

// and each number of seats that are in into those below the mark.
const _: () = prove!((MAX_WORKERS as u64) < MARK);

/// The word with this number below the round.
#[inline]
pub fn stamped(round: u32, number: u64) -> u64
    requires { number < ROUND }
    ensures { result ≡ stamp round number }
{
    ROUND * round as u64 + number
}
