ghost use Rattle.std.specs.Prelude.{◌≡◌, IfErr, MatchResult, Ok, Err};
ghost use Rattle.gc_netlist.specs.Reading.{constant_of, operation_of_two, operation_of_one, two_at, one_at, gate_at};
ghost use Rattle.gc_netlist.specs.Met.{two_left, one_left, gate_left};

use crate::tokens::Tokens;
use gc_netlist::{Gate, Operation, ReadFault};

/// The operation of this name that reads two wires.
#[tactic(auto, unfolding(gc_netlist::specs::Reading::operation_of_two))]
#[inline(always)]
fn operation_of_two(name: &[u8], a: u32, b: u32) -> Result<Operation, ReadFault>
    ensures { result ≡ operation_of_two name.now a b }
{
    match name {
        b"XOR" => Ok(Operation::Xor(a, b)),
        b"AND" => Ok(Operation::And(a, b)),
        b"INV" | b"EQ" | b"EQW" => Err(ReadFault::BadShape),
        _ => Err(ReadFault::UnknownOperation),
    }
}

/// The constant of an EQ gate.
fn constant_of(value: u32) -> Result<Operation, ReadFault>
    ensures { result ≡ constant_of value }
{
    match value {
        0 => Ok(Operation::Eq(false)),
        1 => Ok(Operation::Eq(true)),
        _ => Err(ReadFault::BadConstant),
    }
}

/// The operation of this name that has one number before its wire set.
#[tactic(auto, unfolding(gc_netlist::specs::Reading::operation_of_one))]
fn operation_of_one(name: &[u8], a: u32) -> Result<Operation, ReadFault>
    ensures { result ≡ operation_of_one name.now a }
{
    match name {
        b"INV" => Ok(Operation::Inv(a)),
        b"EQ" => constant_of(a),
        b"EQW" => Ok(Operation::Eqw(a)),
        b"XOR" | b"AND" => Err(ReadFault::BadShape),
        _ => Err(ReadFault::UnknownOperation),
    }
}

/// A gate after its counts 2 and 1.
#[tactic(auto, unfolding(gc_netlist::specs::Reading::two_at, gc_netlist::specs::Met::two_left))]
#[inline(always)]
fn read_two(tokens: &mut Tokens<'_>) -> Result<Gate, ReadFault>
    ensures read { MatchResult result (λ g. two_at tokens.old.left ≡ Ok (g, tokens.new.left))
        (λ e. two_at tokens.old.left ≡ Err e) }
    ensures left { IfErr result (λ _. tokens.new.left ≡ two_left tokens.old.left) }
    ensures kept { tokens.new.text ≡ tokens.old.text }
{
    let a = tokens.number()?;
    let b = tokens.number()?;
    let set = tokens.number()?;
    let name = tokens.token()?;
    let operation = operation_of_two(name, a, b)?;
    Ok(Gate { operation, set })
}

/// A gate after its counts 1 and 1.
#[tactic(auto, unfolding(gc_netlist::specs::Reading::one_at, gc_netlist::specs::Met::one_left))]
fn read_one(tokens: &mut Tokens<'_>) -> Result<Gate, ReadFault>
    ensures read { MatchResult result (λ g. one_at tokens.old.left ≡ Ok (g, tokens.new.left))
        (λ e. one_at tokens.old.left ≡ Err e) }
    ensures left { IfErr result (λ _. tokens.new.left ≡ one_left tokens.old.left) }
    ensures kept { tokens.new.text ≡ tokens.old.text }
{
    let a = tokens.number()?;
    let set = tokens.number()?;
    let name = tokens.token()?;
    let operation = operation_of_one(name, a)?;
    Ok(Gate { operation, set })
}

/// A gate: how many wires it reads and sets, and then the rest. Where these counts are at fault, the first is the last
/// token taken. Few gates are read here: the others don't pay for it.
#[tactic(auto, unfolding(gc_netlist::specs::Reading::gate_at, gc_netlist::specs::Met::gate_left))]
#[inline(never)]
fn read_any_gate(tokens: &mut Tokens<'_>) -> Result<Gate, ReadFault>
    ensures read { MatchResult result (λ g. gate_at tokens.old.left ≡ Ok (g, tokens.new.left))
        (λ e. gate_at tokens.old.left ≡ Err e) }
    ensures left { IfErr result (λ _. tokens.new.left ≡ gate_left tokens.old.left) }
    ensures kept { tokens.new.text ≡ tokens.old.text }
{
    let reads = tokens.number()?;
    let first = tokens.mark();
    let sets = tokens.number()?;
    if reads == 2 && sets == 1 {
        read_two(tokens)
    } else if reads == 1 && sets == 1 {
        read_one(tokens)
    } else {
        tokens.reset(first);
        Err(ReadFault::BadShape)
    }
}

/// Takes a gate that is due, as `2 1 0 1 4 AND`, and checks none of its wires. It is refused as `BadNumber` for what is
/// no number below 2 ^ 32, as `BadShape` for counts that no gate has or that its operation doesn't have, as
/// `UnknownOperation`, as `BadConstant` for an EQ of neither 0 nor 1, or as `Truncated` where the text ends in it.
///
/// A refusal leaves the token that is no number and those after it, no token where the text ends, those after the
/// first of two counts that no gate has, and else those after the gate.
#[inline(always)]
pub fn read_gate(tokens: &mut Tokens<'_>) -> Result<Gate, ReadFault>
    ensures read { MatchResult result (λ g. gate_at tokens.old.left ≡ Ok (g, tokens.new.left))
        (λ e. gate_at tokens.old.left ≡ Err e) }
    ensures left { IfErr result (λ _. tokens.new.left ≡ gate_left tokens.old.left) }
    ensures kept { tokens.new.text ≡ tokens.old.text }
{
    if let Some(gate) = tokens.common_gate() {
        return Ok(gate);
    }
    // `?` and `Ok` build a new result, so that the call's own result, which is laid in memory, doesn't draw the usual
    // gate there too.
    let gate = read_any_gate(tokens)?;
    tokens.pass_feed();
    Ok(gate)
}
