// The calls that a list of corrections can hold, and their answers. Both are printed in their plain
// form: decimal numbers, and bytes in double quotes.
ghost use Rattle.std.specs.Prelude.{◌≡◌, Some};
ghost use Rattle.corrections.specs.Forms.{answer_form, call_form};
ghost use Rattle.corrections.specs.Replies.{done, outcome, reply_of};

use line_parts::Quoted;
use std::fmt;
use store::faults::{Fault, Refusal};

// Not generic with the calls and answers of a session: those are more, and not of another type only.
#[derive(Drop)]
pub enum Call {
    Insert { place: usize, bytes: Vec<u8> },
    Delete { place: usize, count: usize },
    Length,
    Capacity,
    ByteAt { place: usize },
    // Its area has 32,768 bytes, as many as the longest text.
    Copy { place: usize, count: usize },
}

impl fmt::Display for Call {
    ghost output = { λ x. Some (call_form x) };

    fn fmt<W: fmt::Write>(&self, f: &mut fmt::Formatter<W>) -> fmt::Result {
        match self {
            Call::Insert { place, bytes } => write!(f, "insert {place} {}", Quoted(bytes)),
            Call::Delete { place, count } => write!(f, "delete {place} {count}"),
            Call::Length => write!(f, "length"),
            Call::Capacity => write!(f, "capacity"),
            Call::ByteAt { place } => write!(f, "byte {place}"),
            Call::Copy { place, count } => write!(f, "copy {place} {count}"),
        }
    }
}

// A refusal is one answer of a list, printed as the others are: a Result in a Result would say less.
#[derive(Drop)]
pub enum Answer {
    // an accepted edit
    Done,
    // a length or a capacity
    Number(usize),
    // the byte at a place, or none from the length on
    Byte(Option<u8>),
    // the bytes that a copy wrote
    Bytes(Vec<u8>),
    Refused(Fault<Refusal>),
}

impl fmt::Display for Answer {
    ghost output = { λ x. Some (answer_form x) };

    fn fmt<W: fmt::Write>(&self, f: &mut fmt::Formatter<W>) -> fmt::Result {
        match self {
            Answer::Done => write!(f, "done"),
            Answer::Number(n) => write!(f, "{n}"),
            Answer::Byte(Some(b)) => write!(f, "byte {b}"),
            Answer::Byte(None) => write!(f, "no byte"),
            Answer::Bytes(bytes) => write!(f, "bytes {}", Quoted(bytes)),
            Answer::Refused(fault) => write!(f, "refused {fault}"),
        }
    }
}

// The answer of an edit.
impl From<Result<(), Fault<Refusal>>> for Answer {
    ghost from_gives = { λ r a. reply_of a ≡ outcome r done };

    fn from(outcome: Result<(), Fault<Refusal>>) -> Answer {
        outcome.map_or_else(Answer::Refused, |()| Answer::Done)
    }
}
