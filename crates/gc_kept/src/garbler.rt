//! Garbling in pieces: row pairs leave as they are made.

ghost use Rattle.std.specs.Prelude.{◌≡◌, ◌-◌, ◌*◌, ◌/◌, length, min, IfOk, IfErr, OnOk, OnErr};
ghost use Rattle.gc_netlist.specs.Circuit.{and_count};
ghost use Rattle.gc_label.specs.Label.{bytes_of_label};
ghost use Rattle.gc_kept.specs.Garbling.{IsWantOfMemory};
ghost use Rattle.gc_kept.specs.Garbler.{IsBegunUnder, IsBegunFrom, MakesPiece, IsNextPiece, HasPieceFault, AreGivenLabels, AreMadeLabels, HasMadeLabelsFault, AreMadeBits, HasMadeBitsFault};
ghost use Rattle.gc_kept.specs.Labels.{HasFromLabelsFault, HasValueLabelsFault};

use crate::CHUNK;
use crate::both::{labels_of, put_colours, write_both};
use crate::circuit::KeptCircuit;
use crate::fault::KeptFault;
use crate::given::StartBytes;
use crate::label_bytes::write_rows;
use crate::room::has_room;
use gc_file::sizes::PAIR;
use gc_file::{first_wire, sum_of};
use gc_half::{NO_ROWS, RowPair, Start, StreamingGarbler};
use gc_label::Seed;
use std::alloc::Global;
use std::marker::Model;

/// A garbling in progress, with its circuit. It has a label of 16 bytes for each wire, and keeps no row pairs.
#[derive(Drop)]
pub struct KeptGarbler {
    circuit: KeptCircuit,
    garbler: StreamingGarbler<Global>,
}

impl Model for KeptGarbler {
    ghost use Rattle.gc_half.specs.Streaming.{IsGarblerOf};
    ghost use Rattle.gc_kept.specs.Garbler.{GarblerWith};

    ghost Value = { GarblerWith };

    ghost view = { λ g. record { circuit = g.circuit.netlist; garbler = g.garbler } };

    ghost invariant = { λ g. IsGarblerOf g.circuit.netlist g.garbler };
}

impl KeptCircuit {
    /// Begins to garble the circuit under a seed, as [`KeptCircuit::garble`] garbles it.
    pub fn begin_garbling(&self, alloc: Global, seed: &[u8; 32]) -> Result<KeptGarbler, KeptFault>
        ensures ok { IfOk result (IsBegunUnder self.now.netlist seed.now) }
        ensures fault { IfErr result IsWantOfMemory }
    {
        let seed = Seed::from_bytes(*seed);
        let Ok(garbler) = StreamingGarbler::begin_under_seed(alloc, self.circuit(), &seed) else {
            return Err(KeptFault::Garbling);
        };
        Ok(KeptGarbler {
            circuit: self.again()?,
            garbler,
        })
    }

    /// Begins to garble the circuit from an offset, zero labels and a first AND gate, as [`KeptCircuit::garble_from`]
    /// garbles it, and with its refusals.
    pub fn begin_garbling_from(
        &self,
        alloc: Global,
        start: StartBytes<'_>,
    ) -> Result<KeptGarbler, KeptFault>
        ensures ok { IfOk result (IsBegunFrom self.now.netlist
            start.entry.offset.now start.entry.zero_labels.now start.entry.first) }
        ensures fault { IfErr result (HasFromLabelsFault self.now.netlist
            start.entry.offset.now start.entry.zero_labels.now start.entry.first) }
    {
        let given = self.given(alloc, start)?;
        let circuit = self.circuit();
        let start = Start {
            offset: given.offset,
            zero_labels: &given.labels,
            first: given.first,
        };
        let Ok(garbler) = StreamingGarbler::begin(alloc, circuit, start) else {
            return Err(KeptFault::Garbling);
        };
        Ok(KeptGarbler {
            circuit: self.again()?,
            garbler,
        })
    }
}

impl KeptGarbler {
    /// Writes the row pairs of the next AND gates in file order, 32 bytes each, to the front of a buffer: as many as it
    /// has room for, or as are left. It returns how many bytes these are. It refuses a buffer without room for one
    /// where some are left (61), and doesn't allocate.
    pub fn next(&mut self, buffer: &mut [u8]) -> Result<usize, KeptFault>
        ensures ok { IfOk result (IsNextPiece self.old self.new buffer.old buffer.new) }
        ensures fault { IfErr result (HasPieceFault self.old (length buffer.old)) }
        ensures kept { OnErr result (self.new ≡ self.old) }
        ensures unwritten { OnErr result (buffer.new ≡ buffer.old) }
    {
        if buffer.len() < PAIR && !self.garbler.is_whole(self.circuit.circuit()) {
            return Err(KeptFault::SmallBuffer);
        }
        Ok(self.write_next(buffer))
    }

    /// Writes the next row pairs to the front of a buffer, and returns how many bytes these are.
    fn write_next(&mut self, buffer: &mut [u8]) -> usize
        ensures makes { MakesPiece self.old self.new buffer.old buffer.new result }
        ensures most { result ≡ 32 * min (length buffer.old / 32)
            (and_count self.old.circuit - self.old.garbler.made) }
    {
        let mut rows = [NO_ROWS; CHUNK];
        let mut done = 0;
        loop {
            let written = self.write_some(&mut rows, &mut buffer[done..]);
            if written == 0 {
                return done;
            }
            done += written;
        }
    }

    /// Writes the next row pairs to the front of a buffer, at most as many as there are places for them. It returns how
    /// many bytes these are.
    fn write_some(&mut self, rows: &mut [RowPair], buffer: &mut [u8]) -> usize
        ensures makes { MakesPiece self.old self.new buffer.old buffer.new result }
        ensures most { result ≡ 32 * min (min (length rows.old) (length buffer.old / 32))
            (and_count self.old.circuit - self.old.garbler.made) }
    {
        let most = rows.len().min(buffer.len() / PAIR);
        let made = self.garbler.next(self.circuit.circuit(), &mut rows[..most]) as usize;
        write_rows(&rows[..made], buffer);
        PAIR * made
    }

    /// The bytes of the offset.
    pub fn offset(&self) -> [u8; 16]
        ensures { result ≡ bytes_of_label self.now.garbler.offset }
    {
        self.garbler.offset().label().to_bytes()
    }

    /// Writes both labels of each wire of the input value with this index, as
    /// [`KeptGarbling::input_labels`](crate::KeptGarbling::input_labels) does.
    pub fn input_labels(&self, index: u32, zero: &mut [u8], one: &mut [u8]) -> Result<(), KeptFault>
        ensures ok { OnOk result
            (AreGivenLabels self.now index zero.old zero.new one.old one.new) }
        ensures fault { IfErr result (HasValueLabelsFault self.now.circuit.input_widths index
            (length zero.old) (length one.old)) }
        ensures zero_unwritten { OnErr result (zero.new ≡ zero.old) }
        ensures one_unwritten { OnErr result (one.new ≡ one.old) }
    {
        let width = self.circuit.input_width(index)?;
        let from = first_wire(self.circuit.circuit(), index as usize) as usize;
        let labels = labels_of(self.garbler.zero_labels(), from, width);
        write_both(labels, self.garbler.offset(), zero, one)
    }

    /// Writes both labels of each wire of the output value with this index, as
    /// [`KeptGarbling::output_labels`](crate::KeptGarbling::output_labels) does. Where row pairs are left it refuses
    /// (67).
    pub fn output_labels(
        &self,
        index: u32,
        zero: &mut [u8],
        one: &mut [u8],
    ) -> Result<(), KeptFault>
        ensures ok { OnOk result
            (AreMadeLabels self.now index zero.old zero.new one.old one.new) }
        ensures fault { IfErr result
            (HasMadeLabelsFault self.now index (length zero.old) (length one.old)) }
        ensures zero_unwritten { OnErr result (zero.new ≡ zero.old) }
        ensures one_unwritten { OnErr result (one.new ≡ one.old) }
    {
        let circuit = self.circuit.circuit();
        if !self.garbler.is_whole(circuit) {
            return Err(KeptFault::Unfinished);
        }
        let width = self.circuit.output_width(index)?;
        let from = sum_of(&circuit.output_widths()[..index as usize]) as usize;
        let labels = labels_of(self.garbler.output_zero_labels(circuit), from, width);
        write_both(labels, self.garbler.offset(), zero, one)
    }

    /// Writes the decode bits, as [`KeptGarbling::decode_bits`](crate::KeptGarbling::decode_bits) does. Where row pairs
    /// are left it refuses (67).
    pub fn decode_bits(&self, bits: &mut [u8]) -> Result<(), KeptFault>
        ensures ok { OnOk result (AreMadeBits self.now bits.old bits.new) }
        ensures fault { IfErr result (HasMadeBitsFault self.now (length bits.old)) }
        ensures unwritten { OnErr result (bits.new ≡ bits.old) }
    {
        let circuit = self.circuit.circuit();
        if !self.garbler.is_whole(circuit) {
            return Err(KeptFault::Unfinished);
        }
        let labels = self.garbler.output_zero_labels(circuit);
        has_room(labels.len(), bits)?;
        put_colours(labels, &mut bits[..labels.len()]);
        Ok(())
    }
}
