//! The laws of garbled circuits. A law is a function whose contract is the law; a call of it does nothing.

ghost use Rattle.std.specs.Prelude.{ℕ, List};
ghost use Rattle.gc_netlist.specs.Circuit.{Netlist, IsLawful};
ghost use Rattle.gc_half.specs.declared.garbling.RowPair.{RowPair};
ghost use Rattle.gc_half.specs.Joined.{FollowingLaw, JoinedLaw, LabelsLaw, TogetherLaw};
ghost use Rattle.gc_half.specs.Law.{HalfGatesLaw, HasOneGarbling, HasOneEvaluation, HasOneGarbled};
ghost use Rattle.gc_half.specs.Streaming.{EvaluatedPiecesLaw, GarbledPiecesLaw, InputLabelsLaw};

/// The law of half gates, for every hash: the evaluation of a garbling's rows on labels that stand for input
/// bits gives each wire that is set the label that stands for its bit, and decodes to the output bits.
pub fn law_half_gates()
    ensures { HalfGatesLaw }
{}

/// The law of garblings: for any hash each lawful circuit has a garbling, and any two agree on the wires that
/// are set and have the same rows; any rows have an evaluation, and any two agree on the wires that are set.
/// So under a seed a lawful circuit has one [`Garbling`](crate::Garbling): the one that `garbling_of` computes.
pub fn law_garblings()
    ensures garblings { (hash : ℕ → ℕ → ℕ) (offset : ℕ) (c : Netlist) → IsLawful c → (given : ℕ → ℕ)
        → HasOneGarbling hash offset c given }
    ensures evaluations { (hash : ℕ → ℕ → ℕ) (c : Netlist) → IsLawful c → (rows : List RowPair)
        (given : ℕ → ℕ) → HasOneEvaluation hash c rows given }
    ensures under_seed { (c : Netlist) → IsLawful c → (seed : List ℕ) → HasOneGarbled c seed }
{}

/// The laws of joined circuits. Labels that stand for bits go into a garbled circuit, and the labels that come out
/// stand for its output bits (`labels`, `together`). Where input wires of a circuit have the zero labels of output
/// wires of another, under one offset, evaluating it on the active labels that the other gave decodes to its bits on
/// the other's bits, for every hash (`following`, `joined`).
pub fn law_joined()
    ensures labels { LabelsLaw }
    ensures together { TogetherLaw }
    ensures following { FollowingLaw }
    ensures joined { JoinedLaw }
{}

/// The laws of pieces. What a [`StreamingGarbler`](crate::StreamingGarbler) makes is part of the garbling from the same
/// offset, zero labels and first number, so its pieces are together the row pairs of that garbling (`garbled`); and it
/// has the given zero labels of the input wires throughout (`inputs`). The active labels that a
/// [`StreamingEvaluator`](crate::StreamingEvaluator) has are those of any evaluation of all row pairs (`evaluated`).
pub fn law_pieces()
    ensures garbled { GarbledPiecesLaw }
    ensures inputs { InputLabelsLaw }
    ensures evaluated { EvaluatedPiecesLaw }
{}
