//! The law of the definitions that contracts cite.

ghost use Rattle.std.specs.Prelude.{ℕ, List};
ghost use Rattle.gc_netlist.specs.Circuit.{Netlist, IsLawful};
ghost use Rattle.gc_file.specs.WrittenLaw.{AreFiles};

/// The law of written files: what the writers write of a lawful circuit's garbling under a seed, in either version, and
/// of the bits of an input value, are files. So by the laws of files, in `gc_file`, a reader gives back the parts that
/// were written.
pub fn law_written_files()
    ensures { (c : Netlist) → IsLawful c → (seed : List ℕ) → AreFiles c seed }
{}
