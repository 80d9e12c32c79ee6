//! Which gates read a wire.

ghost use Rattle.std.specs.Prelude.{◌≡◌, ◌<◌, ◌≤◌, ◌+◌, ℕ, IfOk, MatchOption, Some, length, slice_get, slice_index_or};
ghost use Rattle.gc_netlist.specs.declared.gate.Gate.{Gate};
ghost use Rattle.gc_store.specs.Readers.{reads_of, read_count, IsReadOf, IsLinked};

use crate::queue::Queue;
use crate::tables::repeated;
use gc_circuit::{Circuit, Memory, Operation};
use std::alloc::Allocator;
use std::marker::Model;

/// The reads of a circuit, as a list for each wire. Gate i has the reads 2 * i and 2 * i + 1, of the wires that it
/// reads first and second.
#[derive(Drop)]
pub struct Readers<A: Allocator> {
    // By wire: its first read, or the number of reads where it has none.
    firsts: Vec<u32, A>,
    // By read: the next read of the same wire, or the number of reads.
    nexts: Vec<u32, A>,
}

impl<A: Allocator> Model for Readers<A> {
    ghost use Rattle.gc_store.specs.Readers.{Links};

    ghost Value = { Links };

    ghost view = { λ r. record { firsts = r.firsts.items; nexts = r.nexts.items } };
}

impl<A: Allocator + Copy> Readers<A> {
    /// The readers of a circuit's wires.
    pub fn of<C: Allocator>(alloc: A, circuit: &Circuit<C>) -> Result<Readers<A>, Memory>
        ensures { IfOk result (λ r. IsLinked circuit.now r.firsts r.nexts) }
    {
        let reads = 2 * circuit.gates();
        let mut firsts = repeated(alloc, reads, circuit.wires())?;
        let mut nexts = repeated(alloc, reads, reads)?;
        for read in (0..reads).rev() {
            if let Some(wire) = wire_read(circuit, read) {
                nexts[read as usize] = firsts[wire as usize];
                firsts[wire as usize] = read;
            }
        }
        Ok(Readers { firsts, nexts })
    }
}

impl<A: Allocator> Readers<A> {
    /// Counts each gate down by the number of its reads of a wire. The caller ensures that these are the readers of the
    /// circuit, that it has such a wire, and that no gate's countdown is less than that number.
    #[inline]
    pub fn count_down(&self, queue: &mut Queue<A>, circuit: &Circuit<A>, wire: u32)
        requires linked { IsLinked circuit.now self.now.firsts self.now.nexts }
        requires wire { wire < circuit.now.wires }
        requires counted { (i : ℕ) (g : Gate) → slice_get circuit.now.gates i ≡ Some g
            → reads_of wire g.operation ≤ slice_index_or queue.old.countdowns i 0 }
        ensures marks { queue.new.marks ≡ queue.old.marks }
        ensures countdowns { length queue.new.countdowns ≡ length queue.old.countdowns }
        ensures counted { (i : ℕ) (g : Gate) → slice_get circuit.now.gates i ≡ Some g
            → slice_index_or queue.new.countdowns i 0 + reads_of wire g.operation
            ≡ slice_index_or queue.old.countdowns i 0 }
    {
        let reads = 2 * circuit.gates();
        let mut read = self.firsts[wire as usize];
        while read < reads {
            queue.count_down(read / 2);
            read = self.nexts[read as usize];
        }
    }
}

/// The wire of a read, if the gate has this read. The caller ensures that there is such a gate.
#[inline]
fn wire_read<C: Allocator>(circuit: &Circuit<C>, read: u32) -> Option<u32>
    requires { read < read_count circuit.now }
    ensures { MatchOption result ((w : ℕ) → ¬ IsReadOf circuit.now read w)
        (IsReadOf circuit.now read) }
{
    let operation = circuit.gate(read / 2).operation;
    if read % 2 == 0 {
        operation.first_wire()
    } else {
        operation.second_wire()
    }
}
