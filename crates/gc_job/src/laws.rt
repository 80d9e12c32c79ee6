//! The law of honest files. A law is a function whose contract is the law; a call of it does nothing.

ghost use Rattle.std.specs.Prelude.{ℕ, Bool, List};
ghost use Rattle.gc_netlist.specs.Circuit.{Netlist, IsLawful};
ghost use Rattle.gc_file.specs.GarbledFile.{GarbledParts};
ghost use Rattle.gc_file.specs.LabelFile.{LabelFileParts};
ghost use Rattle.gc_job.specs.Honest.{AreHonestFiles, HonestFilesLaw};

/// The law of honest files: the garbled file of a lawful circuit's garbling under a seed, in either version, and one
/// label file for each of values that fit the circuit, in any order, have no fault of binding, and the job that they
/// are bound to is honest. So its evaluation returns the circuit's outputs on these values.
pub fn law_honest_files()
    ensures { (c : Netlist) → IsLawful c → (seed : List ℕ) (values : List (List Bool))
        (g : GarbledParts) (files : List LabelFileParts) → AreHonestFiles c seed values g files
        → HonestFilesLaw c seed values g files }
{}
