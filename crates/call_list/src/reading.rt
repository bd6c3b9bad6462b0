// Reading a list of calls: one call to a line; blank lines, and lines that begin with #, are passed
// over. The whole list is read, or nothing of it.
ghost use Rattle.std.specs.Prelude.{◌≡◌};
ghost use Rattle.call_list.specs.Lists.{Adds, AddsCall, Lists, passed_over};
ghost use Rattle.call_list.specs.Lines.{Reads, ReadsIn, at_end, byte_line, call_line, copy_line, delete_line, insert_line, said_by};

use crate::expected::{Argument, Expected, Misread, Unread};
use crate::names::Name;
use crate::parts::{end, number, place_and_count, quoted};
use corrections::calls::Call;
use line_parts::{past_blanks, word};
use std::alloc::Global;

// The calls of a list, and the number of the line on which each stands.
// Two lists, not one of pairs: `correct` takes the calls as one slice, which pairs could not lend.
#[derive(Drop)]
pub struct CallList {
    pub calls: Vec<Call>,
    pub lines: Vec<usize>,
}

pub fn read_list(heap: Global, list: &[u8]) -> Result<CallList, Unread>
    ensures { Lists result list.now }
{
    let mut read = CallList {
        calls: Vec::new(heap),
        lines: Vec::new(heap),
    };
    // Behind the last line's end a blank line is read, which is passed over.
    for (index, line) in list.split(|b| *b == b'\n').enumerate() {
        read.add_line(heap, index + 1, line)?;
    }
    Ok(read)
}

impl CallList {
    // Reads a line, and adds its call, if it has one.
    fn add_line(&mut self, heap: Global, number: usize, line: &[u8]) -> Result<(), Unread>
        ensures { Adds result self.old number line.now self.new }
    {
        if is_passed_over(line) {
            return Ok(());
        }
        let call = read_call(heap, line).map_err(|why| why.at(number))?;
        self.add_call(number, call)
    }

    #[tactic(auto, using(crate::proofs::Listing::held_more))]
    fn add_call(&mut self, number: usize, call: Call) -> Result<(), Unread>
        ensures { AddsCall result self.old number (said_by call) self.new }
    {
        self.calls.push(call)?;
        self.lines.push(number)?;
        Ok(())
    }
}

fn is_passed_over(line: &[u8]) -> bool
    ensures { result ≡ passed_over line.now }
{
    matches!(past_blanks(line), [] | [b'#', ..])
}

fn read_call(heap: Global, line: &[u8]) -> Result<Call, Misread>
    ensures { ReadsIn result (call_line line.now) }
{
    let (name, rest) = word(line);
    match Name::try_from(name)? {
        Name::Insert => read_insert(heap, rest),
        Name::Delete => Ok(read_delete(rest)?),
        Name::Length => Ok(read_plain(Call::Length, rest)?),
        Name::Capacity => Ok(read_plain(Call::Capacity, rest)?),
        Name::Byte => Ok(read_byte(rest)?),
        Name::Copy => Ok(read_copy(rest)?),
    }
}

fn read_insert(heap: Global, rest: &[u8]) -> Result<Call, Misread>
    ensures { ReadsIn result (insert_line rest.now) }
{
    let (place, rest) = number(rest, Argument::Place)?;
    let (bytes, rest) = quoted(heap, rest)?;
    end(rest)?;
    Ok(Call::Insert { place, bytes })
}

fn read_delete(rest: &[u8]) -> Result<Call, Expected>
    ensures { Reads result (delete_line rest.now) }
{
    let (place, count) = place_and_count(rest)?;
    Ok(Call::Delete { place, count })
}

fn read_copy(rest: &[u8]) -> Result<Call, Expected>
    ensures { Reads result (copy_line rest.now) }
{
    let (place, count) = place_and_count(rest)?;
    Ok(Call::Copy { place, count })
}

fn read_byte(rest: &[u8]) -> Result<Call, Expected>
    ensures { Reads result (byte_line rest.now) }
{
    let (place, rest) = number(rest, Argument::Place)?;
    end(rest)?;
    Ok(Call::ByteAt { place })
}

fn read_plain(call: Call, rest: &[u8]) -> Result<Call, Expected>
    ensures { Reads result (at_end rest.now (said_by call)) }
{
    end(rest)?;
    Ok(call)
}
