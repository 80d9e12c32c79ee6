//! The circuit of a file, and its digest.

ghost use Rattle.std.specs.Prelude.{◌≡◌, ℕ, List, IfOk, IfErr, IfSome, OnOk};
ghost use Rattle.sha2.specs.Sha256.{sha256};
ghost use Rattle.gc_netlist.specs.Canon.{canonical_text};
ghost use Rattle.gc_netlist.specs.Circuit.{IsLawful};
ghost use Rattle.gc_disk.specs.Files.{HasFailed};
ghost use Rattle.gc_command.specs.CircuitFile.{IsCircuit, HasReadingFault};

use crate::digest::with_digest;
use crate::fault::Fault;
use gc_circuit::Circuit;
use gc_disk::Files;
use std::alloc::Allocator;
use std::thread::Threads;

/// The circuit of a file. The file's bytes are dropped.
pub fn read_circuit<A: Allocator + Copy, F: Files>(
    alloc: A,
    name: &str,
    files: &mut F,
) -> Result<Circuit<A>, Fault>
    ensures circuit { IfOk result
        (λ c. IfSome (F.bytes files.old name.now) (λ bytes. IsCircuit bytes c)) }
    ensures lawful { IfOk result IsLawful }
    ensures fault { IfErr result (HasReadingFault (F.bytes files.old name.now)
        (HasFailed (F.failures files.old) (F.failures files.new) name.now)) }
    ensures counted { OnOk result (F.failures files.new ≡ F.failures files.old) }
    ensures same { (n : List ℕ) → F.bytes files.new n ≡ F.bytes files.old n }
{
    let bytes = files.read(alloc, name)?;
    Ok(Circuit::read(alloc, &bytes)?)
}

/// The circuit of a file, and the digest of its canonical text. The file's bytes are dropped.
pub fn read_circuit_and_digest<R: Threads, A: Allocator + Copy + Send + Sync, F: Files>(
    rt: &R,
    alloc: A,
    name: &str,
    files: &mut F,
) -> Result<(Circuit<A>, [u8; 32]), Fault>
    ensures digest { IfOk result (λ made. made.1 ≡ sha256 (canonical_text made.0)) }
    ensures circuit { IfOk result
        (λ made. IfSome (F.bytes files.old name.now) (λ bytes. IsCircuit bytes made.0)) }
    ensures lawful { IfOk result (λ made. IsLawful made.0) }
    ensures fault { IfErr result (HasReadingFault (F.bytes files.old name.now)
        (HasFailed (F.failures files.old) (F.failures files.new) name.now)) }
    ensures counted { OnOk result (F.failures files.new ≡ F.failures files.old) }
    ensures same { (n : List ℕ) → F.bytes files.new n ≡ F.bytes files.old n }
{
    let bytes = files.read(alloc, name)?;
    let text = bytes.as_slice();
    let (circuit, (), digest) = with_digest(
        rt,
        text,
        &mut || Ok((Circuit::read(alloc, text)?, ())),
        &|_circuit, ()| (),
    )?;
    Ok((circuit, digest))
}
