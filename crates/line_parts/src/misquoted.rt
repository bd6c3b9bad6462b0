// Why bytes in double quotes cannot be read.
ghost use Rattle.std.specs.Prelude.{◌≡◌};
ghost use Rattle.line_parts.specs.declared.misquoted.Misquoted.TheVariants.{NoMemory};

use std::alloc::AllocFailed;
use std::fmt;

// What should have stood between the quotes.
#[derive(Clone, Copy)]
pub enum InQuotes {
    // a byte from 0x20 to 0x7e, or an escape
    PlainByte,
    ClosingQuote,
}

impl fmt::Display for InQuotes {
    fn fmt<W: fmt::Write>(&self, f: &mut fmt::Formatter<W>) -> fmt::Result {
        match self {
            InQuotes::PlainByte => write!(
                f,
                "a byte from 0x20 to 0x7e or one of the escapes \\\\ \\\" \\n \\t \\xHH"
            ),
            InQuotes::ClosingQuote => write!(f, "a closing double quote"),
        }
    }
}

#[derive(Clone, Copy)]
pub enum Misquoted {
    Malformed(InQuotes),
    NoMemory,
}

impl<T: Drop> From<AllocFailed<T>> for Misquoted {
    ghost from_gives = { λ _ m. m ≡ NoMemory };

    fn from(_refused: AllocFailed<T>) -> Misquoted {
        Misquoted::NoMemory
    }
}
