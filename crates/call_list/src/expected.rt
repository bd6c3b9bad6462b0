// What a line of a list should have had, where it cannot be read.
ghost use Rattle.std.specs.Prelude.{◌≡◌};
ghost use Rattle.call_list.specs.Misreads.{misread_by, unread_at, wanted_in_quotes};
ghost use Rattle.call_list.specs.declared.expected.Unread.TheVariants as unread;
ghost use Rattle.call_list.specs.declared.expected.Misread.TheVariants.{Malformed, NoMemory};

use line_parts::{InQuotes, Misquoted};
use std::alloc::{AllocError, AllocFailed};
use std::fmt;

#[derive(Clone, Copy, PartialEq, Eq, Debug)]
pub enum Argument {
    Place,
    Count,
}

impl fmt::Display for Argument {
    fn fmt<W: fmt::Write>(&self, f: &mut fmt::Formatter<W>) -> fmt::Result {
        match self {
            Argument::Place => write!(f, "place"),
            Argument::Count => write!(f, "count"),
        }
    }
}

#[derive(Clone, Copy, PartialEq, Eq, Debug)]
pub enum Expected {
    // the name of a call
    Call,
    // a number, as the call's place or count
    Number(Argument),
    // bytes between double quotes
    Bytes,
    // between the quotes: a byte from 0x20 to 0x7e, or an escape
    PlainByte,
    ClosingQuote,
    // nothing more on the line
    End,
}

impl fmt::Display for Expected {
    fn fmt<W: fmt::Write>(&self, f: &mut fmt::Formatter<W>) -> fmt::Result {
        match self {
            Expected::Call => write!(
                f,
                "expected a call: insert, delete, length, capacity, byte or copy"
            ),
            Expected::Number(of) => write!(
                f,
                "expected a {of}, a number from 0 to 18446744073709551615"
            ),
            Expected::Bytes => write!(f, "expected bytes in double quotes"),
            Expected::PlainByte => write!(f, "expected {}", InQuotes::PlainByte),
            Expected::ClosingQuote => write!(f, "expected {}", InQuotes::ClosingQuote),
            Expected::End => write!(f, "expected the end of the line"),
        }
    }
}

impl From<InQuotes> for Expected {
    ghost from_gives = { λ q e. e ≡ wanted_in_quotes q };

    fn from(wanted: InQuotes) -> Expected {
        match wanted {
            InQuotes::PlainByte => Expected::PlainByte,
            InQuotes::ClosingQuote => Expected::ClosingQuote,
        }
    }
}

// Why a list was not read.
#[derive(Clone, Copy, PartialEq, Eq, Debug)]
pub enum Unread {
    // the line's number, counted from 1, and what was expected there
    Malformed { line: usize, expected: Expected },
    NoMemory,
}

impl fmt::Display for Unread {
    fn fmt<W: fmt::Write>(&self, f: &mut fmt::Formatter<W>) -> fmt::Result {
        match self {
            Unread::Malformed { line, expected } => write!(f, "line {line}: {expected}"),
            Unread::NoMemory => write!(f, "not enough memory"),
        }
    }
}

// Why a line was not read; its number is not known yet.
// Not generic with `Misquoted`: no From can join two forms of a foreign type, so `?` would fail.
#[derive(Clone, Copy)]
pub(crate) enum Misread {
    Malformed(Expected),
    NoMemory,
}

impl Misread {
    pub(crate) fn at(self, line: usize) -> Unread
        ensures { result ≡ unread_at self line }
    {
        match self {
            Misread::Malformed(expected) => Unread::Malformed { line, expected },
            Misread::NoMemory => Unread::NoMemory,
        }
    }
}

impl From<Expected> for Misread {
    ghost from_gives = { λ e m. m ≡ Malformed e };

    fn from(expected: Expected) -> Misread {
        Misread::Malformed(expected)
    }
}

impl From<Misquoted> for Misread {
    ghost from_gives = { λ q m. m ≡ misread_by q };

    fn from(misquoted: Misquoted) -> Misread {
        match misquoted {
            Misquoted::Malformed(wanted) => Misread::Malformed(Expected::from(wanted)),
            Misquoted::NoMemory => Misread::NoMemory,
        }
    }
}

impl From<AllocError> for Unread {
    ghost from_gives = { λ _ u. u ≡ unread.NoMemory };

    fn from(_error: AllocError) -> Unread {
        Unread::NoMemory
    }
}

impl<T: Drop> From<AllocFailed<T>> for Unread {
    ghost from_gives = { λ _ u. u ≡ unread.NoMemory };

    fn from(_refused: AllocFailed<T>) -> Unread {
        Unread::NoMemory
    }
}
