//! A circuit's digest, which other threads take while a command works.

ghost use Rattle.std.specs.Prelude.{◌≡◌, List, ℕ, Ok, Err, IfOk, IfErr, MatchOption};
ghost use Rattle.sha2.specs.Sha256.{sha256};
ghost use Rattle.gc_netlist.specs.Canon.{canonical_text};

use crate::fault::Fault;
use gc_circuit::Circuit;
use gc_lanes::LongSha256;
use sha2::Digest;
use std::alloc::Allocator;
use std::thread;
use std::thread::Threads;

/// A circuit whose digest is taken: [`Circuit`], of any allocator.
pub trait Digested {
    // The circuit's canonical text.
    ghost canonical: { Self → List ℕ };

    /// The circuit's digest, unless a text is its canonical text. It doesn't allocate.
    fn digest_unless(&self, text: &[u8]) -> Option<[u8; 32]>
        ensures { MatchOption result (text.now ≡ canonical self.now)
            (λ digest. digest ≡ sha256 (canonical self.now)) };
}

impl<A: Allocator> Digested for Circuit<A> {
    ghost canonical = { λ c. canonical_text c };

    fn digest_unless(&self, text: &[u8]) -> Option<[u8; 32]> {
        self.digest_unless_canonical(text)
    }
}

/// What `read` reads of a circuit's text, what `work` makes of it, and the circuit's digest. Meanwhile, where threads
/// can be started, one takes the SHA-256 of the text, and another compares the text with the circuit's canonical text:
/// where these are equal, that is the digest.
pub fn with_digest<
    R: Threads,
    C: Digested + Sync + Drop,
    J: Drop,
    T: Drop,
    F: FnMut() -> Result<(C, J), Fault>,
    W: Fn(&C, J) -> T,
>(rt: &R, text: &[u8], read: &mut F, work: &W) -> Result<(C, T, [u8; 32]), Fault>
    requires read { F.pre read.old }
    requires work { W.IsAlwaysCallable work.now }
    ensures made { IfOk result (λ made. (j : _) × F.step read.old (Ok (made.0, j)) read.new
        × ((p : _) × W.post work.now p j made.1 × (p.now ≡ made.0))) }
    ensures digest { IfOk result (λ made. made.2 ≡ sha256 (C.canonical made.0)) }
    ensures fault { IfErr result (λ fault. F.step read.old (Err fault) read.new) }
{
    // `join_mut` says what becomes of the files that `read` reads, and `join` doesn't.
    let (hash, made) = thread::join_mut(
        rt,
        &mut || -> [u8; 32]
            ensures { result ≡ sha256 text.entry.now }
        { LongSha256::digest(text) },
        &mut || -> Result<(C, T, Option<[u8; 32]>), Fault>
            requires { F.pre read.now × W.IsAlwaysCallable work.now }
        { read_and_work(rt, text, read, work) },
    );
    let (circuit, made, other) = made?;
    Ok((circuit, made, other.unwrap_or(hash)))
}

/// What `read` reads, what `work` makes of it, and the circuit's digest, unless the text is its canonical text, which
/// another thread finds, where one can be started.
fn read_and_work<
    R: Threads,
    C: Digested + Sync + Drop,
    J: Drop,
    T: Drop,
    F: FnMut() -> Result<(C, J), Fault>,
    W: Fn(&C, J) -> T,
>(rt: &R, text: &[u8], read: &mut F, work: &W) -> Result<(C, T, Option<[u8; 32]>), Fault>
    requires read { F.pre read.old }
    requires work { W.IsAlwaysCallable work.now }
    ensures made { IfOk result (λ made. (j : _) × F.step read.old (Ok (made.0, j)) read.new
        × ((p : _) × W.post work.now p j made.1 × (p.now ≡ made.0))) }
    ensures other { IfOk result (λ made. MatchOption made.2 (text.now ≡ C.canonical made.0)
        (λ digest. digest ≡ sha256 (C.canonical made.0))) }
    ensures fault { IfErr result (λ fault. F.step read.old (Err fault) read.new) }
{
    let (circuit, input) = read()?;
    let (other, made) = thread::join(
        rt,
        || -> Option<[u8; 32]>
            ensures { MatchOption result (text.entry.now ≡ C.canonical circuit)
                (λ digest. digest ≡ sha256 (C.canonical circuit)) }
        { circuit.digest_unless(text) },
        || -> T
            requires { W.IsAlwaysCallable work.now }
            ensures { (p : _) × W.post work.entry.now p input result × (p.now ≡ circuit) }
        { work(&circuit, input) },
    );
    Ok((circuit, made, other))
}
