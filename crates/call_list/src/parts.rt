// The parts of a line behind a call's name. Each function answers its part and what stands behind it.
ghost use Rattle.call_list.specs.Parts.{BytesRead, EndRead, NumberRead, PlaceAndCountRead};

use crate::expected::{Argument, Expected, Misread};
use line_parts::{past_blanks, read_number, unquote, word};
use std::alloc::Global;

pub(crate) fn number(line: &[u8], of: Argument) -> Result<(usize, &[u8]), Expected>
    ensures { NumberRead line.now of result }
{
    let (digits, rest) = word(line);
    let value = read_number(digits).ok_or(Expected::Number(of))?;
    Ok((value, rest))
}

// The two numbers of a call that has nothing else.
pub(crate) fn place_and_count(line: &[u8]) -> Result<(usize, usize), Expected>
    ensures { PlaceAndCountRead line.now result }
{
    let (place, rest) = number(line, Argument::Place)?;
    let (count, rest) = number(rest, Argument::Count)?;
    end(rest)?;
    Ok((place, count))
}

pub(crate) fn quoted(heap: Global, line: &[u8]) -> Result<(Vec<u8>, &[u8]), Misread>
    ensures { BytesRead line.now result }
{
    let [b'"', rest @ ..] = past_blanks(line) else {
        return Err(Misread::Malformed(Expected::Bytes));
    };
    let (bytes, taken) = unquote(heap, rest)?;
    Ok((bytes, rest.split_at(taken).1))
}

// Nothing but blanks may stand behind a call.
pub(crate) fn end(line: &[u8]) -> Result<(), Expected>
    ensures { EndRead line.now result }
{
    match past_blanks(line) {
        [] => Ok(()),
        _ => Err(Expected::End),
    }
}
