//! What a caller in another language holds.

use crate::circuit::KeptCircuit;
use crate::evaluator::KeptEvaluator;
use crate::garbler::KeptGarbler;
use crate::garbling::KeptGarbling;
use crate::job::KeptJob;

/// What a caller in another language holds.
#[derive(Drop)]
pub enum Held {
    /// A circuit.
    Circuit(KeptCircuit),
    /// A garbling.
    Garbling(KeptGarbling),
    /// A job.
    Job(KeptJob),
    /// A garbling in progress.
    Garbler(KeptGarbler),
    /// An evaluation in progress.
    Evaluator(KeptEvaluator),
}
