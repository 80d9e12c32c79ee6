//! Laws of the definitions that contracts cite.

ghost use Rattle.std.specs.Prelude.{ℕ, List};
ghost use Rattle.gc_netlist.specs.Canon.{CanonicalLaw};
ghost use Rattle.gc_netlist.specs.Circuit.{Netlist, IsLawful};
ghost use Rattle.gc_netlist.specs.FirstFault.{ReadingLaw};

/// The law of reading: each text spells exactly one lawful circuit or has exactly one first fault, and not both;
/// reading from left to right gives that circuit or that fault.
pub fn law_reading()
    ensures { (text : List ℕ) → ReadingLaw text }
{}

/// The law of canonical texts: that of a lawful circuit spells it, is read back as it, and is that of no other
/// lawful circuit.
pub fn law_canonical_text()
    ensures { (c : Netlist) → IsLawful c → CanonicalLaw c }
{}
