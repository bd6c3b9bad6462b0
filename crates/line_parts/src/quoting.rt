// Reading bytes in double quotes. The escapes are \\ \" \n \t and \xHH; all other bytes from 0x20 to 0x7e
// stand for themselves.
ghost use Rattle.std.specs.Prelude.{◌≡◌, ◌<◌, ◌≤◌, length, IfSome, IfOk, IfErr};
ghost use Rattle.line_parts.specs.Unquotes.{Misquotes, closed, hex_turn, hex_value, malformed, read_quoted, turn_at};

use crate::misquoted::{InQuotes, Misquoted};
use std::alloc::Global;

// How far an escape has been read.
#[derive(Clone, Copy)]
enum Quoting {
    Plain,
    // behind a backslash
    Escape,
    // behind \x
    HighDigit,
    // behind \x and a first digit
    LowDigit(u8),
}

// What the next byte between the quotes does. To fail is one of four, since one match takes them all.
enum Turn {
    Goes(Quoting),
    Gives(u8),
    Closes,
    Fails,
}

fn hex_digit(b: u8) -> Option<u8>
    ensures value { result ≡ hex_value b }
    ensures small { IfSome result (λ d. d < 16) }
{
    char::from(b).to_digit(16).map(|digit| digit as u8)
}

fn take_turn(state: Quoting, b: u8) -> Turn
    ensures { result ≡ turn_at state b }
{
    match state {
        Quoting::Plain => match b {
            b'"' => Turn::Closes,
            b'\\' => Turn::Goes(Quoting::Escape),
            0x20..=0x7e => Turn::Gives(b),
            _ => Turn::Fails,
        },
        Quoting::Escape => match b {
            b'\\' | b'"' => Turn::Gives(b),
            b'n' => Turn::Gives(b'\n'),
            b't' => Turn::Gives(b'\t'),
            b'x' => Turn::Goes(Quoting::HighDigit),
            _ => Turn::Fails,
        },
        Quoting::HighDigit => Turn::Goes(Quoting::LowDigit(b)),
        Quoting::LowDigit(high) => hex_byte(high, b),
    }
}

fn hex_byte(high: u8, low: u8) -> Turn
    ensures { result ≡ hex_turn (hex_value high) (hex_value low) }
{
    match (hex_digit(high), hex_digit(low)) {
        (Some(h), Some(l)) => Turn::Gives(h * 16 + l),
        (Some(_), None) | (None, _) => Turn::Fails,
    }
}

// Reads up to the closing quote what stands behind an opening one: the bytes, and how many of the
// line they took, the closing quote too.
#[tactic(auto, using(crate::proofs::Unquoted::unquoted_closes, crate::proofs::Unquoted::unquoted_fails, crate::proofs::Unquoted::unquoted_gives, crate::proofs::Unquoted::unquoted_goes, crate::proofs::Unquoted::unquoted_open))]
pub fn unquote(heap: Global, rest: &[u8]) -> Result<(Vec<u8>, usize), Misquoted>
    ensures read { IfOk result (λ v. read_quoted rest.now ≡ closed v.0.items v.1) }
    ensures within { IfOk result (λ v. v.1 ≤ length rest.now) }
    ensures unread { IfErr result (λ e. Misquotes e (λ x. read_quoted rest.now ≡ malformed x)) }
{
    let mut bytes = Vec::new(heap);
    let mut state = Quoting::Plain;
    for (i, b) in rest.iter().enumerate() {
        match take_turn(state, *b) {
            Turn::Goes(next) => state = next,
            Turn::Gives(byte) => {
                bytes.push(byte)?;
                state = Quoting::Plain;
            }
            Turn::Closes => return Ok((bytes, i + 1)),
            Turn::Fails => return Err(Misquoted::Malformed(InQuotes::PlainByte)),
        }
    }
    Err(Misquoted::Malformed(InQuotes::ClosingQuote))
}
