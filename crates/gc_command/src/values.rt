//! The values of a command line.

ghost use Rattle.std.specs.Prelude.{map, IfOk, IfErr, string_bytes};
ghost use Rattle.gc_command.specs.Values.{HasInputValueFault, HasValueFault, IsInputValue, SpellValues};

use crate::fault::Fault;
use gc_circuit::read_value;
use std::alloc::Allocator;

/// The bits of each value, from one text for each of these widths. It refuses another number of texts than widths (14),
/// and the first text that is no value of its width (15 to 17).
pub fn read_values<A: Allocator + Copy>(
    alloc: A,
    widths: &[u32],
    texts: &[String],
) -> Result<Vec<Vec<bool, A>, A>, Fault>
    ensures spelled { IfOk result (λ values. SpellValues widths.now (map string_bytes texts.now)
        (map (λ value. value.items) values.items)) }
    ensures fault { IfErr result (HasValueFault widths.now (map string_bytes texts.now)) }
{
    if texts.len() != widths.len() {
        return Err(Fault::WrongCount);
    }
    let mut values = Vec::with_capacity(alloc, texts.len())?;
    for (i, text) in texts.iter().enumerate() {
        let value = read_value(alloc, text.as_bytes(), widths[i])?;
        values.push(value)?;
    }
    Ok(values)
}

/// The bits that a text spells for the input value of this index, given the widths of all. It refuses an index that no
/// value has (42), and a text that is no value of its width (15 to 17).
pub fn read_input_value<A: Allocator + Copy>(
    alloc: A,
    widths: &[u32],
    index: u32,
    text: &str,
) -> Result<Vec<bool, A>, Fault>
    ensures spelled { IfOk result (λ bits. IsInputValue widths.now index text.now bits.items) }
    ensures fault { IfErr result (HasInputValueFault widths.now index text.now) }
{
    match widths.get(index as usize) {
        Some(width) => Ok(read_value(alloc, text.as_bytes(), *width)?),
        None => Err(Fault::NoSuchValue),
    }
}
