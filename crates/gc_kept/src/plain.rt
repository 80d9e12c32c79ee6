//! Evaluation in the clear, of bits as bytes.

ghost use Rattle.std.specs.Prelude.{◌≡◌, length, map, flat_map, sum, IfOk, IfErr, OnOk, OnErr};
ghost use Rattle.gc_netlist.specs.Circuit.{input_wires};
ghost use Rattle.gc_kept.specs.Bits.{HasBitsFault};
ghost use Rattle.gc_kept.specs.Plain.{ArePlainOutputs, HasPlainBufferFault};
ghost use Rattle.gc_kept.specs.Wires.{AreBitsOn};

use crate::bits::{read_bits, write_bits};
use crate::circuit::KeptCircuit;
use crate::fault::KeptFault;
use crate::room::has_room;
use gc_circuit::{Memory, ReadFault, plain_eval, wire_bits};
use std::alloc::Global;

/// The values of these widths that follow one another. The caller ensures that the widths add up.
fn values_of(
    alloc: Global,
    widths: &[u32],
    bits: &[bool],
) -> Result<Vec<Vec<bool, Global>, Global>, Memory>
    requires { length bits.now ≡ sum widths.now }
    ensures widths { IfOk result (λ values.
        map length (map (λ v. v.items) values.items) ≡ widths.now) }
    ensures bits { IfOk result (λ values. flat_map (λ v. v.items) values.items ≡ bits.now) }
{
    let mut values = Vec::with_capacity(alloc, widths.len())?;
    let mut rest = bits;
    for width in widths {
        let (value, others) = rest.split_at(*width as usize);
        values.push(Vec::from_slice(alloc, value)?)?;
        rest = others;
    }
    Ok(values)
}

impl KeptCircuit {
    /// Evaluates the circuit in the clear, as [`plain_eval`] does, on the bits of all input wires, and writes the bits
    /// of the output wires to the front of a buffer. It refuses a buffer without a byte for each output wire (61), a
    /// wrong number of bits (16), and a byte other than 0 and 1 (15). After a fault the buffer is as it was.
    pub fn plain(&self, alloc: Global, bits: &[u8], outputs: &mut [u8]) -> Result<(), KeptFault>
        ensures ok { OnOk result
            (ArePlainOutputs self.now.netlist bits.now outputs.old outputs.new) }
        ensures fault { IfErr result
            (HasPlainBufferFault self.now.netlist bits.now (length outputs.old)) }
        ensures unwritten { OnErr result (outputs.new ≡ outputs.old) }
    {
        let circuit = self.circuit();
        has_room(circuit.output_wires() as usize, outputs)?;
        let bits = read_bits(alloc, bits, circuit.input_wires() as usize)?;
        let Ok(values) = values_of(alloc, circuit.input_widths(), &bits) else {
            return Err(KeptFault::Circuit(ReadFault::Memory));
        };
        let Ok(found) = plain_eval(alloc, circuit, &values) else {
            return Err(KeptFault::Circuit(ReadFault::Memory));
        };
        write_bits(&found, outputs);
        Ok(())
    }

    /// The bits on all wires, in order, for the bits of all input wires; false on a wire that is not set.
    pub fn wire_bits(&self, alloc: Global, bits: &[u8]) -> Result<Vec<bool, Global>, KeptFault>
        ensures ok { IfOk result (λ all. AreBitsOn self.now.netlist bits.now all.items) }
        ensures fault { IfErr result (HasBitsFault bits.now (input_wires self.now.netlist)) }
    {
        let circuit = self.circuit();
        let bits = read_bits(alloc, bits, circuit.input_wires() as usize)?;
        let Ok(values) = values_of(alloc, circuit.input_widths(), &bits) else {
            return Err(KeptFault::Circuit(ReadFault::Memory));
        };
        match wire_bits(alloc, circuit, &values) {
            Ok(all) => Ok(all),
            Err(_) => Err(KeptFault::Circuit(ReadFault::Memory)),
        }
    }
}
