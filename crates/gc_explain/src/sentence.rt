//! The explanation of a fault.

ghost use Rattle.std.specs.Prelude.{◌≡◌, ◌++◌, [], decimal, string_bytes, IfOk, IfSome, OnOk};
ghost use Rattle.gc_explain.specs.Explain.{explanation_line};
ghost use Rattle.gc_explain.specs.Places.{byte_place, file_place, line_place, located_place};

use gc_circuit::Located;
use itoa::Buffer;
use std::alloc::{AllocError, Allocator};

/// The explanation of a fault: the place that it names, which may be empty, and a sentence.
#[derive(Drop)]
pub(crate) struct Explanation<A: Allocator> {
    pub(crate) place: Vec<u8, A>,
    pub(crate) sentence: String<A>,
}

impl<A: Allocator> Explanation<A> {
    /// The explanation as one line.
    pub(crate) fn line(self, alloc: A) -> Result<Vec<u8, A>, AllocError>
        ensures { IfOk result
            (λ line. line.items ≡ explanation_line self.place.items (string_bytes self.sentence)) }
    {
        let mut line = Vec::from_slice(alloc, b"halfgates: ".as_slice())?;
        line.extend_from_slice(&self.place)?;
        line.extend_from_slice(self.sentence.as_bytes())?;
        line.push(b'\n')?;
        Ok(line)
    }
}

/// A sentence without a place.
pub(crate) fn alone<A: Allocator>(
    alloc: A,
    sentence: Result<String<A>, AllocError>,
) -> Option<Explanation<A>>
    ensures { IfSome result (λ it. it.place.items ≡ []) }
{
    Some(Explanation {
        place: Vec::new(alloc),
        sentence: sentence.ok()?,
    })
}

/// A sentence on the file of this name.
pub(crate) fn on_file<A: Allocator>(
    alloc: A,
    name: &str,
    sentence: Result<String<A>, AllocError>,
) -> Option<Explanation<A>>
    ensures { IfSome result (λ it. it.place.items ≡ file_place name.now) }
{
    Some(Explanation {
        place: file_place(alloc, name).ok()?,
        sentence: sentence.ok()?,
    })
}

/// The place that is a whole file.
pub(crate) fn file_place<A: Allocator>(alloc: A, name: &str) -> Result<Vec<u8, A>, AllocError>
    ensures { IfOk result (λ place. place.items ≡ file_place name.now) }
{
    let mut place = Vec::from_slice(alloc, name.as_bytes())?;
    place.extend_from_slice(b": ")?;
    Ok(place)
}

/// The place that is a byte of a file.
pub(crate) fn byte_place<A: Allocator>(
    alloc: A,
    name: &str,
    byte: u64,
) -> Result<Vec<u8, A>, AllocError>
    ensures { IfOk result (λ place. place.items ≡ byte_place name.now byte) }
{
    let mut place = file_place(alloc, name)?;
    place.extend_from_slice(b"byte ")?;
    push_number(&mut place, byte)?;
    place.extend_from_slice(b": ")?;
    Ok(place)
}

/// The place that is a line of a file.
pub(crate) fn line_place<A: Allocator>(
    alloc: A,
    name: &str,
    line: u64,
) -> Result<Vec<u8, A>, AllocError>
    ensures { IfOk result (λ place. place.items ≡ line_place name.now line) }
{
    let mut place = Vec::from_slice(alloc, name.as_bytes())?;
    place.push(b':')?;
    push_number(&mut place, line)?;
    place.extend_from_slice(b": ")?;
    Ok(place)
}

/// The place that is a line and a column of a circuit's file.
pub(crate) fn located_place<A: Allocator>(
    alloc: A,
    name: &str,
    located: &Located,
) -> Result<Vec<u8, A>, AllocError>
    ensures { IfOk result (λ place. place.items ≡ located_place name.now located.now) }
{
    let mut place = Vec::from_slice(alloc, name.as_bytes())?;
    place.push(b':')?;
    push_number(&mut place, located.line)?;
    place.push(b':')?;
    push_number(&mut place, located.column)?;
    place.extend_from_slice(b": ")?;
    Ok(place)
}

/// Adds the digits of a number.
fn push_number<A: Allocator>(place: &mut Vec<u8, A>, number: u64) -> Result<(), AllocError>
    ensures { OnOk result (place.new.items ≡ place.old.items ++ decimal number) }
{
    let mut buffer = Buffer::new();
    place.extend_from_slice(buffer.format(number).as_bytes())
}
