//! The digest of a circuit.

ghost use Rattle.std.specs.Prelude.{◌≡◌, IsTrue, MatchOption};
ghost use Rattle.sha2.specs.Sha256.{sha256};
ghost use Rattle.gc_netlist.specs.Canon.{canonical_text};

use crate::circuit::Circuit;
use crate::text_sink::Comparison;
use gc_lanes::LongSha256;
use sha2::Digest;
use std::alloc::Allocator;

impl<A: Allocator> Circuit<A> {
    /// The digest of the circuit: SHA-256 (FIPS 180-4) of its canonical text. It doesn't allocate.
    pub fn digest(&self) -> [u8; 32]
        ensures { result ≡ sha256 (canonical_text self.now) }
    {
        let mut hasher = LongSha256::new();
        match self.write_canonical(&mut hasher) {
            Ok(()) => hasher.finalize(),
            Err(never) => match never {},
        }
    }

    /// The digest of the circuit, where a text isn't its canonical text. Where it is, the digest is the SHA-256 of the
    /// text, and there is no need to spell the circuit and hash it. It doesn't allocate.
    pub fn digest_unless_canonical(&self, text: &[u8]) -> Option<[u8; 32]>
        ensures { MatchOption result (text.now ≡ canonical_text self.now)
            (λ digest. digest ≡ sha256 (canonical_text self.now)) }
    {
        if self.is_canonical(text) {
            None
        } else {
            Some(self.digest())
        }
    }

    /// Whether a text is the canonical text of the circuit.
    fn is_canonical(&self, text: &[u8]) -> bool
        ensures { IsTrue result → text.now ≡ canonical_text self.now }
    {
        let mut comparison = Comparison::new(text);
        self.write_canonical(&mut comparison).is_ok() && comparison.is_done()
    }
}
