// What a call answers.
ghost use Rattle.std.specs.Prelude.{◌≡◌};
ghost use Rattle.calls.specs.Replies.{reply_of, said, said_number, done};

use places::faults::Fault;

// A refusal is one answer of a list, printed as the others are: a Result in a Result would say less.
#[derive(Drop)]
pub enum Answer {
    // an accepted call that has nothing to say
    Done,
    // a length, a capacity, a marker's place or a number of spans, entries or groups
    Number(usize),
    // the byte at a place, or none from the length on
    Byte(Option<u8>),
    // the bytes that a copy wrote
    Bytes(Vec<u8>),
    // how many bytes the window leaves out at the text's front and at its end
    Window { before: usize, behind: usize },
    Refused(Fault),
}

// The answer of a call that has nothing to say where it is accepted.
impl From<Result<(), Fault>> for Answer {
    ghost from_gives = { λ r a. reply_of a ≡ said r done };

    fn from(outcome: Result<(), Fault>) -> Answer {
        outcome.map_or_else(Answer::Refused, |()| Answer::Done)
    }
}

// The answer of a call that tells a number.
impl From<Result<usize, Fault>> for Answer {
    ghost from_gives = { λ r a. reply_of a ≡ said_number r };

    fn from(outcome: Result<usize, Fault>) -> Answer {
        outcome.map_or_else(Answer::Refused, Answer::Number)
    }
}
