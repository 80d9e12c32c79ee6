//! Many garblings of one circuit.

ghost use Rattle.std.specs.Prelude.{IfOk, IfErr};
ghost use Rattle.std.specs.List.{AllZip};
ghost use Rattle.gc_kept.specs.Garbling.{IsGarblingUnder, IsWantOfMemory};

use crate::circuit::KeptCircuit;
use crate::fault::KeptFault;
use crate::garbling::KeptGarbling;
use gc_half::{FirstAnd, garble_two};
use gc_label::{Seed, offset};
use std::alloc::Global;

impl KeptCircuit {
    /// Garbles the circuit under each of these seeds on one thread, one after another or two at a time. Each garbling
    /// is what [`KeptCircuit::garble`] returns for its seed.
    pub fn garble_many(
        &self,
        alloc: Global,
        seeds: &[[u8; 32]],
        side_by_side: bool,
    ) -> Result<Vec<KeptGarbling, Global>, KeptFault>
        ensures ok { IfOk result (λ made. AllZip (IsGarblingUnder self.now) seeds.now made.items) }
        ensures fault { IfErr result IsWantOfMemory }
    {
        let mut made = Vec::with_capacity(alloc, seeds.len())?;
        let pairs = if side_by_side { seeds.len() / 2 } else { 0 };
        for i in 0..pairs {
            let (one, other) = self.garble_two(alloc, &seeds[2 * i], &seeds[2 * i + 1])?;
            made.push(one)?;
            made.push(other)?;
        }
        for seed in &seeds[2 * pairs..] {
            made.push(self.garble(alloc, seed)?)?;
        }
        Ok(made)
    }

    /// Garbles the circuit under two seeds side by side.
    fn garble_two(
        &self,
        alloc: Global,
        seed: &[u8; 32],
        other: &[u8; 32],
    ) -> Result<(KeptGarbling, KeptGarbling), KeptFault>
        ensures one { IfOk result (λ made. IsGarblingUnder self.now seed.now made.0) }
        ensures other { IfOk result (λ made. IsGarblingUnder self.now other.now made.1) }
        ensures fault { IfErr result IsWantOfMemory }
    {
        let seed = Seed::from_bytes(*seed);
        let other = Seed::from_bytes(*other);
        let Ok((one, two)) = garble_two(alloc, self.circuit(), &seed, &other) else {
            return Err(KeptFault::Garbling);
        };
        let one = KeptGarbling {
            circuit: self.again()?,
            offset: offset(&seed),
            first: FirstAnd::ZERO,
            garbling: one,
        };
        let other = KeptGarbling {
            circuit: self.again()?,
            offset: offset(&other),
            first: FirstAnd::ZERO,
            garbling: two,
        };
        Ok((one, other))
    }
}
