//! The law of circuits that differ in the order of their gates.

ghost use Rattle.gc_netlist.specs.Circuit.{Netlist};
ghost use Rattle.gc_depth.specs.Order.{IsReordering, ComputesSame};

/// The law of reorderings: they compute the same.
pub fn law_reordering()
    ensures { (c d : Netlist) → IsReordering c d → ComputesSame c d }
{}
