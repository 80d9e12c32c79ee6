//! Opening labels of output wires.

ghost use Rattle.std.specs.Prelude.{◌≡◌, ◌≢◌, ◌+◌, ◌*◌, ◌≤◌, ℕ, Bool, List, length, map, slice_get, slice_index, Some, IsFalse, IsTrue, IfErr, OnOk, OnErr};
ghost use Rattle.gc_netlist.specs.Spelling.{bit_number};
ghost use Rattle.gc_label.specs.Label.{colour};
ghost use Rattle.gc_half.specs.Evaluation.{encode as label_for};
ghost use Rattle.gc_file.specs.LabelFile.{encoded_with};
ghost use Rattle.gc_kept.specs.Labels.{AreLabels};
ghost use Rattle.gc_kept.specs.Opening.{AreOpened, HasOpenFault, HasWrongLabel};

use crate::bits::bit_byte;
use crate::fault::KeptFault;
use crate::garbling::KeptGarbling;
use crate::room::has_room;
use gc_file::sizes::LABEL;
use gc_half::encode;
use gc_label::{Label, Offset};

impl KeptGarbling {
    /// Opens labels of the output value with this index, 16 bytes for each wire, and writes the bits that they stand
    /// for to the front of a buffer. It refuses an index without a value (42), another number of bytes than 16 for each
    /// wire of the value (66), a buffer without a byte for each wire (61), and labels of which one is neither of the
    /// two labels of its wire (63), in this order. After a fault the buffer is as it was. No branch and no address
    /// depends on a label, but for whether all are right.
    pub fn open(&self, index: u32, labels: &[u8], bits: &mut [u8]) -> Result<(), KeptFault>
        ensures ok { OnOk result (AreOpened self.now index labels.now bits.old bits.new) }
        ensures fault { IfErr result (HasOpenFault self.now index labels.now (length bits.old)) }
        ensures unwritten { OnErr result (bits.new ≡ bits.old) }
    {
        self.law_coloured();
        let width = self.circuit().output_width(index)?;
        let zero_labels = self.output_zero_labels(index, width);
        if labels.len() != LABEL * zero_labels.len() {
            return Err(KeptFault::WrongSize);
        }
        has_room(width, bits)?;
        if !are_right(self.offset, zero_labels, labels) {
            return Err(KeptFault::WrongLabel);
        }
        put_bits(zero_labels, labels, &mut bits[..width]);
        Ok(())
    }

    /// The law of the offset: its colour is 1. A call of it does nothing.
    fn law_coloured(&self)
        ensures { IsTrue (colour self.now.offset) }
    {
        let _ = self.offset.label();
    }
}

/// Whether each of these labels is one of the two of its wire, which has this zero label. All of them are compared
/// before that is decided. The caller ensures that there are 16 bytes for each wire.
fn are_right(offset: Offset, zero_labels: &[Label], labels: &[u8]) -> bool
    requires { length labels.now ≡ 16 * length zero_labels.now }
    ensures right { IsTrue result → (bits : List Bool)
        × AreLabels labels.now (encoded_with offset (slice_index zero_labels.now) 0 bits) }
    ensures wrong { IsFalse result
        → HasWrongLabel offset (slice_index zero_labels.now) 0 labels.now }
{
    let mut all = true;
    for i in 0..zero_labels.len() {
        all &= is_right(offset, zero_labels[i], label_at(labels, i));
    }
    all
}

/// Writes the bits that these labels stand for on wires with these zero labels. The caller ensures that there are 16
/// bytes and a byte for each wire.
fn put_bits(zero_labels: &[Label], labels: &[u8], bits: &mut [u8])
    requires labels { length labels.now ≡ 16 * length zero_labels.now }
    requires bits { length bits.old ≡ length zero_labels.now }
    ensures { (offset : ℕ) (opened : List Bool) → IsTrue (colour offset)
        → AreLabels labels.now (encoded_with offset (slice_index zero_labels.now) 0 opened)
        → bits.new ≡ map bit_number opened }
{
    for i in 0..zero_labels.len() {
        bits[i] = bit_byte(bit_of(zero_labels[i], label_at(labels, i)));
    }
}

/// Whether a label is one of the two of a wire with this zero label.
fn is_right(offset: Offset, zero_label: Label, label: Label) -> bool
    ensures right { IsTrue result → (bit : Bool) × (label ≡ label_for offset zero_label bit) }
    ensures wrong { IsFalse result → (bit : Bool) → label ≢ label_for offset zero_label bit }
{
    encode(offset, zero_label, bit_of(zero_label, label)) == label
}

/// The bit that a label stands for on a wire with this zero label, where it is one of the wire's two labels: the two
/// have different colours.
#[tactic(auto, using(crate::proofs::OpenLemmas::bit_back))]
fn bit_of(zero_label: Label, label: Label) -> bool
    ensures { (offset : ℕ) (bit : Bool) → IsTrue (colour offset)
        → label ≡ label_for offset zero_label bit → result ≡ bit }
{
    label.colour() ^ zero_label.colour()
}

/// The label at a place of labels. The caller ensures that there is such a place.
#[tactic(auto, using(crate::proofs::OpenLemmas::label_read))]
fn label_at(labels: &[u8], place: usize) -> Label
    requires { 16 * place + 16 ≤ length labels.now }
    ensures { (all : List ℕ) → AreLabels labels.now all → slice_get all place ≡ Some result }
{
    let at = LABEL * place;
    let mut bytes = [0; LABEL];
    bytes.copy_from_slice(&labels[at..at + LABEL]);
    Label::from_bytes(bytes)
}
