// Showing bytes in double quotes, in their plain form.
ghost use Rattle.std.specs.Prelude.{◌≡◌, ◌<◌, ◌+◌, ◌*◌, ◌≤◌, [], ◌∷◌, ◌++◌, length, IfOk, Some, string_bytes};
ghost use Rattle.line_parts.specs.AsciiTexts.{text_of};
ghost use Rattle.line_parts.specs.Quotes.{escape, escaped, hex, quoted};

use crate::ascii_text::AsciiText;
use std::alloc::{AllocError, Global};
use std::fmt;

// Bytes that are shown in double quotes.
#[derive(Clone, Copy)]
pub struct Quoted<'a>(pub &'a [u8]);

// How many bytes are escaped before they are written: a writer takes many at once far faster than one
// after the other.
const PART: usize = 64;

impl fmt::Display for Quoted<'_> {
    ghost output = { λ x. Some (quoted x.0.now) };

    fn fmt<W: fmt::Write>(&self, f: &mut fmt::Formatter<W>) -> fmt::Result {
        f.write_str("\"")?;
        for part in self.0.chunks(PART) {
            f.write_str(escaped(part).as_str())?;
        }
        f.write_str("\"")
    }
}

// Bytes as they stand between the quotes, where each takes four at most.
#[tactic(auto, using(crate::proofs::Unquoted::escaped_more))]
fn escaped(part: &[u8]) -> AsciiText
    requires { length part.now ≤ 64 }
    ensures { text_of result ≡ escaped part.now }
{
    let mut text = AsciiText::new();
    for b in part {
        push_escaped(&mut text, *b);
    }
    text
}

fn push_escaped(text: &mut AsciiText, b: u8)
    requires { length (text_of text.old) + 4 ≤ 256 }
    ensures text { text_of text.new ≡ text_of text.old ++ escape b }
    ensures few { length (text_of text.new) ≤ length (text_of text.old) + 4 }
{
    match b {
        b'\\' | b'"' => push_behind_backslash(text, b),
        b'\n' => push_behind_backslash(text, b'n'),
        b'\t' => push_behind_backslash(text, b't'),
        0x20..=0x7e => text.push(b),
        _ => {
            push_behind_backslash(text, b'x');
            text.push(hex_char(b / 16));
            text.push(hex_char(b % 16));
        }
    }
}

fn push_behind_backslash(text: &mut AsciiText, b: u8)
    requires room { length (text_of text.old) + 2 ≤ 256 }
    requires ascii { b < 128 }
    ensures { text_of text.new ≡ text_of text.old ++ 92 ∷ b ∷ [] }
{
    text.push(b'\\');
    text.push(b);
}

fn hex_char(digit: u8) -> u8
    requires { digit < 16 }
    ensures value { result ≡ hex digit }
    ensures ascii { result < 128 }
{
    if digit < 10 {
        b'0' + digit
    } else {
        b'a' + (digit - 10)
    }
}

pub fn quote(heap: Global, bytes: &[u8]) -> Result<String, AllocError>
    ensures { IfOk result (λ s. string_bytes s ≡ quoted bytes.now) }
{
    format!(in heap; "{}", Quoted(bytes))
}
