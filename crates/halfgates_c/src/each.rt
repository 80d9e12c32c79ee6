//! Lists of jobs, with a code for each.

ghost use Rattle.std.specs.Prelude.{◌≡◌, ◌≢◌, IfErr, OnErr, OnOk, length, map, pos};
ghost use Rattle.gc_kept.specs.declared.fault.KeptFault.{KeptFault};
ghost use Rattle.halfgates_c.specs.ReturnsCode.{ReturnsCode};
ghost use Rattle.halfgates_c.specs.Each.{AreCodes, HasEachFault, outcome_code};
ghost use Rattle.halfgates_c.specs.Holding.{OfJobs};

use crate::borrow::Borrow;
use crate::code::{MEMORY, code_of};
use crate::handle::Handle;
use crate::jobs::jobs_of;
use crate::list::{put_all, take_all};
use gc_kept::{Held, KeptFault, KeptJob, evaluate_each};
use std::alloc::Global;

/// Writes the code of each of these outcomes. The caller ensures that there is a place for each.
fn write_codes(outcomes: &[Result<(), KeptFault>], codes: &mut [i32])
    requires { length codes.old ≡ length outcomes.now }
    ensures { codes.new ≡ map outcome_code outcomes.now }
{
    for (i, code) in codes.iter_mut().enumerate() {
        *code = code_of(outcomes[i]);
    }
}

/// Evaluates jobs, and writes their bits and a code for each.
fn evaluate(
    alloc: Global,
    jobs: &[&KeptJob],
    bits: &mut [u8],
    codes: &mut [i32],
) -> Result<(), KeptFault>
    ensures ok { OnOk result (AreCodes (map (λ j. j.now) jobs.now) bits.old bits.new codes.new) }
    ensures fault { IfErr result (HasEachFault (map (λ j. j.now) jobs.now)
        (length bits.old) (length codes.old)) }
    ensures bits_kept { OnErr result (bits.new ≡ bits.old) }
    ensures codes_kept { OnErr result (codes.new ≡ codes.old) }
{
    if codes.len() != jobs.len() {
        return Err(KeptFault::BadArgument);
    }
    let outcomes = evaluate_each(alloc, jobs, bits)?;
    write_codes(&outcomes, codes);
    Ok(())
}

/// Evaluates the jobs that these handles hold.
fn evaluate_held(alloc: Global, borrows: &[Borrow<Held>], bits: &mut [u8], codes: &mut [i32]) -> i32
    ensures answer { OfJobs (map (λ b. b.value) borrows.now) result (λ jobs.
        ReturnsCode result (AreCodes jobs bits.old bits.new codes.new)
        (HasEachFault jobs (length bits.old) (length codes.old))) }
    ensures bits_kept { result ≢ pos 0 → bits.new ≡ bits.old }
    ensures codes_kept { result ≢ pos 0 → codes.new ≡ codes.old }
{
    match jobs_of(alloc, borrows) {
        Ok(jobs) => code_of(evaluate(alloc, &jobs, bits, codes)),
        Err(code) => code,
    }
}

/// Evaluates jobs, and writes the bits of the output wires, one job's after another's, and a code for each job.
#[unsafe(no_mangle)]
pub extern "C" fn halfgates_evaluate_each(
    alloc: Global,
    jobs: &mut [Handle],
    bits: &mut [u8],
    codes: &mut [i32],
) -> i32
    ensures answer { OfJobs (map (λ h. h.held) jobs.old) result (λ js.
        ReturnsCode result (AreCodes js bits.old bits.new codes.new)
        (HasEachFault js (length bits.old) (length codes.old))) }
    ensures back { jobs.new ≡ jobs.old }
    ensures bits_kept { result ≢ pos 0 → bits.new ≡ bits.old }
    ensures codes_kept { result ≢ pos 0 → codes.new ≡ codes.old }
{
    let Ok(borrows) = take_all(alloc, jobs) else {
        return MEMORY;
    };
    let code = evaluate_held(alloc, &borrows, bits, codes);
    put_all(borrows, jobs);
    code
}
