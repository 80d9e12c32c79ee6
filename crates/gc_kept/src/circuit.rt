//! Circuits, with their digest or without, which several may hold.

ghost use Rattle.std.specs.Prelude.{◌≡◌, ◌≢◌, ◌<◌, ◌^◌, Some, slice_get, IfOk, IfErr, IsFalse, IsTrue};
ghost use Rattle.gc_netlist.specs.Circuit.{IsLawful};
ghost use Rattle.gc_netlist.specs.Canon.{canonical_text};
ghost use Rattle.gc_netlist.specs.Spelling.{Spells};
ghost use Rattle.gc_circuit.specs.Arrays.{IsFound, text_of};
ghost use Rattle.gc_depth.specs.Order.{IsOrdered};
ghost use Rattle.gc_kept.specs.Circuit.{HasCircuitTextFault, HasDigest, HasNoDigest, HasNoValue};

use crate::fault::KeptFault;
use gc_circuit::{Arrays, ArraysFault, Circuit, ReadFault};
use gc_depth::order_by_depth;
use gc_job::BindFault;
use std::alloc::Global;
use std::marker::Model;
use std::sync::Arc;

/// The width at this index, or 42 where there is none.
#[tactic(auto, using(std::proofs::lemmas::Option::gets))]
fn width_of(widths: &[u32], index: u32) -> Result<usize, KeptFault>
    ensures ok { IfOk result (λ width. slice_get widths.now index ≡ Some width) }
    ensures few { IfOk result (λ width. width < 2 ^ 32) }
    ensures fault { IfErr result (HasNoValue widths.now index) }
{
    match widths.get(index as usize) {
        Some(width) => Ok(*width as usize),
        None => Err(KeptFault::Binding(BindFault::NoSuchValue)),
    }
}

/// A circuit, and its digest where that was taken. The circuit is shared with its garblings and jobs, and dropped with
/// the last holder.
#[derive(Drop)]
pub struct KeptCircuit {
    shared: Arc<Circuit<Global>, Global>,
    digest: Option<[u8; 32]>,
}

impl Model for KeptCircuit {
    ghost use Rattle.std.specs.Prelude.{◌≡◌, IfSome, is_some};
    ghost use Rattle.sha2.specs.Sha256.{sha256};
    ghost use Rattle.gc_netlist.specs.Canon.{canonical_text};
    ghost use Rattle.gc_kept.specs.Circuit.{CircuitWith};

    ghost Value = { CircuitWith };

    ghost view = { λ c. record { netlist = c.shared.value; has_digest = is_some c.digest } };

    ghost invariant = { λ c. IfSome c.digest
        (λ digest. digest ≡ sha256 (canonical_text c.shared.value)) };
}

impl KeptCircuit {
    /// Reads a circuit, as [`Circuit::read`] does, without its digest.
    pub fn read(alloc: Global, text: &[u8]) -> Result<KeptCircuit, KeptFault>
        ensures ok { IfOk result (λ c. IsLawful c.netlist × Spells text.now c.netlist) }
        ensures without { IfOk result (λ c. IsFalse c.has_digest) }
        ensures fault { IfErr result (HasCircuitTextFault text.now) }
    {
        let circuit = Circuit::read(alloc, text)?;
        Ok(KeptCircuit {
            shared: Arc::new(alloc, circuit)?,
            digest: None,
        })
    }

    /// Makes a circuit of arrays, as [`Circuit::from_arrays`] does, without its digest.
    pub fn from_arrays(alloc: Global, arrays: Arrays<'_>) -> Result<KeptCircuit, ArraysFault>
        ensures ok { IfOk result (λ c.
            IsLawful c.netlist × (canonical_text c.netlist ≡ text_of arrays.entry)) }
        ensures without { IfOk result (λ c. IsFalse c.has_digest) }
        ensures fault { IfErr result (λ e. e.fault ≢ ReadFault.Memory
            → IsFound (text_of arrays.entry) e.fault e.gate e.wire) }
    {
        let circuit = Circuit::from_arrays(alloc, arrays)?;
        Ok(KeptCircuit {
            shared: Arc::new(alloc, circuit)?,
            digest: None,
        })
    }

    /// The circuit with its gates in order of AND depth, as [`order_by_depth`] puts them. Its digest is taken exactly
    /// where this one's is.
    pub fn ordered(&self, alloc: Global) -> Result<KeptCircuit, KeptFault>
        ensures ok { IfOk result (λ c. IsOrdered self.now.netlist c.netlist) }
        ensures digest { IfOk result (λ c. c.has_digest ≡ self.now.has_digest) }
        ensures fault { IfErr result (λ fault. fault ≡ KeptFault.Memory) }
    {
        let Ok(ordered) = order_by_depth(alloc, self.circuit()) else {
            return Err(KeptFault::Memory);
        };
        let mut ordered = KeptCircuit {
            shared: Arc::new(alloc, ordered)?,
            digest: None,
        };
        if self.has_digest() {
            ordered.take_digest();
        }
        Ok(ordered)
    }

    /// The circuit.
    pub fn circuit(&self) -> &Circuit<Global>
        ensures same { result.now ≡ self.now.netlist }
        ensures lawful { IsLawful self.now.netlist }
    {
        self.shared.law_lawful();
        &self.shared
    }

    /// How many wires the input value with this index has. It refuses an index without a value (42).
    pub(crate) fn input_width(&self, index: u32) -> Result<usize, KeptFault>
        ensures ok { IfOk result (λ width.
            slice_get self.now.netlist.input_widths index ≡ Some width) }
        ensures few { IfOk result (λ width. width < 2 ^ 32) }
        ensures fault { IfErr result (HasNoValue self.now.netlist.input_widths index) }
    {
        width_of(self.circuit().input_widths(), index)
    }

    /// How many wires the output value with this index has. It refuses an index without a value (42).
    pub(crate) fn output_width(&self, index: u32) -> Result<usize, KeptFault>
        ensures ok { IfOk result (λ width.
            slice_get self.now.netlist.output_widths index ≡ Some width) }
        ensures few { IfOk result (λ width. width < 2 ^ 32) }
        ensures fault { IfErr result (HasNoValue self.now.netlist.output_widths index) }
    {
        width_of(self.circuit().output_widths(), index)
    }

    /// Takes its digest, where it has none. It doesn't allocate.
    pub fn take_digest(&mut self)
        ensures netlist { self.new.netlist ≡ self.old.netlist }
        ensures digest { IsTrue self.new.has_digest }
    {
        if !self.has_digest() {
            self.digest = Some(self.circuit().digest());
        }
    }

    /// Whether it has its digest.
    pub(crate) fn has_digest(&self) -> bool
        ensures { result ≡ self.now.has_digest }
    {
        self.digest.is_some()
    }

    /// Its digest. It refuses a circuit that has none (68).
    pub fn digest(&self) -> Result<&[u8; 32], KeptFault>
        ensures ok { IfOk result (λ digest. HasDigest self.now digest.now) }
        ensures fault { IfErr result (HasNoDigest self.now) }
    {
        self.digest.as_ref().ok_or(KeptFault::NoDigest)
    }

    /// The circuit once more, for another to hold, with its digest where it has one. The circuit isn't copied.
    pub fn again(&self) -> Result<KeptCircuit, KeptFault>
        ensures ok { IfOk result (λ c. c ≡ self.now) }
        ensures fault { IfErr result (λ fault. fault ≡ KeptFault.Memory) }
    {
        Ok(KeptCircuit {
            shared: Arc::try_clone(&self.shared)?,
            digest: self.digest,
        })
    }
}
