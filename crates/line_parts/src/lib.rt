// The parts of a line of text: words between blanks, decimal numbers, and bytes in double quotes.
#![tactic(auto)]

mod ascii_text;
mod misquoted;
mod quoting;
mod showing;
mod words;

pub use misquoted::{InQuotes, Misquoted};
pub use quoting::unquote;
pub use showing::{Quoted, quote};
pub use words::{past_blanks, read_number, word};
