//! Both labels of wires.

ghost use Rattle.std.specs.Prelude.{◌≡◌, ◌+◌, ◌*◌, ◌<◌, ◌≤◌, ◌⊎◌, length, map, take, drop, OnOk, OnErr, IfErr};
ghost use Rattle.gc_netlist.specs.Spelling.{bit_number};
ghost use Rattle.gc_label.specs.Label.{colour};
ghost use Rattle.gc_kept.specs.Labels.{AreBoth};

use crate::bits::bit_byte;
use crate::fault::KeptFault;
use crate::label_bytes::{write_labels, write_sums};
use crate::room::has_room;
use gc_file::sizes::LABEL;
use gc_label::{Label, Offset};

/// The labels of `count` wires from wire `from` on. The caller ensures that there are such wires.
pub(crate) fn labels_of(labels: &[Label], from: usize, count: usize) -> &[Label]
    requires { from + count ≤ length labels.now }
    ensures labels { result.now ≡ take count (drop from labels.now) }
    ensures count { length result.now ≡ count }
{
    &labels[from..from + count]
}

/// Writes both labels of wires, which have these zero labels, to the front of two buffers: the zero labels, and the
/// labels that stand for 1. It refuses a buffer that is too small (61).
pub(crate) fn write_both(
    labels: &[Label],
    offset: Offset,
    zero: &mut [u8],
    one: &mut [u8],
) -> Result<(), KeptFault>
    ensures ok { OnOk result
        (AreBoth offset labels.now zero.old zero.new one.old one.new) }
    ensures fault { IfErr result (λ fault. (fault ≡ KeptFault.SmallBuffer)
        × ((length zero.old < 16 * length labels.now)
        ⊎ (length one.old < 16 * length labels.now))) }
    ensures zero_unwritten { OnErr result (zero.new ≡ zero.old) }
    ensures one_unwritten { OnErr result (one.new ≡ one.old) }
{
    has_room(LABEL * labels.len(), zero)?;
    has_room(LABEL * labels.len(), one)?;
    write_labels(labels, zero);
    write_sums(labels, offset.label(), one);
    Ok(())
}

/// Writes the colour of each label. The caller ensures that there is a byte for each.
pub(crate) fn put_colours(labels: &[Label], bits: &mut [u8])
    requires { length bits.old ≡ length labels.now }
    ensures { bits.new ≡ map bit_number (map colour labels.now) }
{
    for (i, bit) in bits.iter_mut().enumerate() {
        *bit = bit_byte(labels[i].colour());
    }
}
