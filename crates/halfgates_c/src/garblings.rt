//! Lists of garblings.

ghost use Rattle.std.specs.Prelude.{◌≡◌, ◌≢◌, IfErr, IfOk, MatchOption, MatchResult, Some, length, map, pos};
ghost use Rattle.gc_kept.specs.Garblings.{AreAllGarbledAt, HasAllGarbledFault};
ghost use Rattle.gc_kept.specs.Version.{version_of};
ghost use Rattle.gc_kept.specs.declared.held.Held.TheVariants as held;
ghost use Rattle.halfgates_c.specs.ReturnsCode.{ReturnsCode};
ghost use Rattle.halfgates_c.specs.Holding.{OfGarbling, OfGarblings, OfNoGarblings};

use crate::borrow::Borrow;
use crate::code::{BAD_ARGUMENT, MEMORY, NULL_POINTER, WRONG_HANDLE, code_of};
use crate::handle::Handle;
use crate::list::{put_all, take_all};
use gc_kept::{Held, KeptGarbling, version_of, write_many};
use std::alloc::Global;

/// The garbling that a handle holds, or else the code.
fn garbling_of(borrow: &Borrow<Held>) -> Result<&KeptGarbling, i32>
    ensures { MatchResult result
        (λ garbling. borrow.now.value ≡ Some (held.Garbling garbling.now))
        (λ code. OfGarbling borrow.now.value code (λ garbling. ⊥)) }
{
    match borrow.get() {
        Some(Held::Garbling(garbling)) => Ok(garbling),
        Some(_) => Err(WRONG_HANDLE),
        None => Err(NULL_POINTER),
    }
}

/// The garblings that these handles hold, or else the code of the first that holds none.
fn garblings_of(alloc: Global, borrows: &[Borrow<Held>]) -> Result<Vec<&KeptGarbling, Global>, i32>
    ensures ok { IfOk result (λ garblings.
        map (λ b. b.value) borrows.now
        ≡ map (λ g. Some (held.Garbling g)) (map (λ g. g.now) garblings.items)) }
    ensures code { IfErr result (OfNoGarblings (map (λ b. b.value) borrows.now)) }
{
    let Ok(mut garblings) = Vec::with_capacity(alloc, borrows.len()) else {
        return Err(MEMORY);
    };
    for borrow in borrows {
        let garbling = garbling_of(borrow)?;
        if garblings.push(garbling).is_err() {
            return Err(MEMORY);
        }
    }
    Ok(garblings)
}

/// Writes the garbled files of these garblings.
fn write_version(alloc: Global, garblings: &[&KeptGarbling], version: u32, files: &mut [u8]) -> i32
    ensures answer { MatchOption (version_of version) (result ≡ pos 60) (λ v.
        ReturnsCode result (AreAllGarbledAt (map (λ g. g.now) garblings.now) v files.old files.new)
        (HasAllGarbledFault (map (λ g. g.now) garblings.now) v (length files.old))) }
    ensures kept { result ≢ pos 0 → files.new ≡ files.old }
{
    match version_of(version) {
        Some(version) => code_of(write_many(alloc, garblings, version, files)),
        None => BAD_ARGUMENT,
    }
}

/// Writes the garbled files of the garblings that these handles hold.
fn write_held(alloc: Global, borrows: &[Borrow<Held>], version: u32, files: &mut [u8]) -> i32
    ensures answer { OfGarblings (map (λ b. b.value) borrows.now) result (λ gs.
        MatchOption (version_of version) (result ≡ pos 60) (λ v.
        ReturnsCode result (AreAllGarbledAt gs v files.old files.new)
        (HasAllGarbledFault gs v (length files.old)))) }
    ensures kept { result ≢ pos 0 → files.new ≡ files.old }
{
    match garblings_of(alloc, borrows) {
        Ok(garblings) => write_version(alloc, &garblings, version, files),
        Err(code) => code,
    }
}

/// Writes the garbled files of garblings, one after another.
#[unsafe(no_mangle)]
pub extern "C" fn halfgates_write_many(
    alloc: Global,
    garblings: &mut [Handle],
    version: u32,
    files: &mut [u8],
) -> i32
    ensures answer { OfGarblings (map (λ h. h.held) garblings.old) result (λ gs.
        MatchOption (version_of version) (result ≡ pos 60) (λ v.
        ReturnsCode result (AreAllGarbledAt gs v files.old files.new)
        (HasAllGarbledFault gs v (length files.old)))) }
    ensures back { garblings.new ≡ garblings.old }
    ensures kept { result ≢ pos 0 → files.new ≡ files.old }
{
    let Ok(borrows) = take_all(alloc, garblings) else {
        return MEMORY;
    };
    let code = write_held(alloc, &borrows, version, files);
    put_all(borrows, garblings);
    code
}
