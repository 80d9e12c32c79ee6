//! The law of the definitions that contracts cite.

ghost use Rattle.std.specs.Prelude.{ℕ, List};
ghost use Rattle.gc_netlist.specs.Circuit.{Netlist, IsLawful};
ghost use Rattle.gc_audit.specs.AuditedFileLaw.{AuditedFileLaw};

/// The law of audited files: what an audit finds of the parts of a file that was read holds of its bytes. So a garbled
/// file in which nothing differs is, byte for byte, the one that the writers write of the circuit's garbling under the
/// seed, and a label file whose labels stand for bits is the one that they write of these bits.
pub fn law_audited_files()
    ensures { (c : Netlist) → IsLawful c → (seed : List ℕ) → AuditedFileLaw c seed }
{}
