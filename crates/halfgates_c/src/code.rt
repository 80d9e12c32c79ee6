//! Codes.

ghost use Rattle.std.specs.Prelude.{◌≡◌, ◌≢◌, pos, OnOk, OnErr, IfOk, IfErr};
ghost use Rattle.gc_kept.specs.Fault.{code_of};
ghost use Rattle.halfgates_c.specs.ReturnsCode.{IsReported};

use gc_kept::KeptFault;

/// The code of success.
pub(crate) const OK: i32 = 0;

/// The code of an argument that a call doesn't take.
pub(crate) const BAD_ARGUMENT: i32 = 60;

/// The code of a buffer with too little room.
pub(crate) const SMALL_BUFFER: i32 = 61;

/// The code of memory that is missing for a handle, a file or a list.
pub(crate) const MEMORY: i32 = 62;

/// The code of a pointer that is null.
pub(crate) const NULL_POINTER: i32 = 64;

/// The code of a handle of another type.
pub(crate) const WRONG_HANDLE: i32 = 65;

/// The code of a circuit without the digest that a call needs.
pub(crate) const NO_DIGEST: i32 = 68;

/// The code of an outcome: 0, or the number of the fault.
pub(crate) fn code_of(outcome: Result<(), KeptFault>) -> i32
    ensures done { OnOk outcome (result ≡ pos 0) }
    ensures fault { IfErr outcome (λ fault. result ≡ pos (code_of fault)) }
    ensures some { OnErr outcome (result ≢ pos 0) }
{
    match outcome {
        Ok(()) => OK,
        Err(fault) => fault.code() as i32,
    }
}

/// The code of a call that writes to a buffer: it reports how many bytes are written, or how many need room.
pub(crate) fn report(outcome: Result<usize, KeptFault>, written: &mut usize) -> i32
    ensures done { IfOk outcome (λ size. (result ≡ pos 0) × (written.new ≡ size)) }
    ensures fault { IfErr outcome (λ fault.
        (result ≡ pos (code_of fault)) × IsReported written.new fault) }
    ensures some { OnErr outcome (result ≢ pos 0) }
    ensures unreported { result ≢ pos 0 → result ≢ pos 61 → written.new ≡ written.old }
{
    match outcome {
        Ok(size) | Err(KeptFault::NeedsRoom(size)) => *written = size,
        Err(_) => {}
    }
    code_of(outcome.map(|_| ()))
}
