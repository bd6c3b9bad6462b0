// Why a command was not carried out.
use call_list::Unread;
use std::{fmt, io};

// What stands in the place of a path where a list comes from standard input.
pub(crate) const STANDARD_INPUT: &str = "standard input";

#[derive(Drop)]
pub enum Problem<'a> {
    NoCommand,
    UnknownCommand(&'a str),
    UnknownOption(&'a str),
    NoValue(&'a str),
    NoStore(&'a str),
    NoCapacity(&'a str),
    SecondList(&'a str),
    Unreadable { path: &'a str, error: io::Error },
    Unwritable { path: &'a str, error: io::Error },
    List { path: &'a str, unread: Unread },
    TooLong { length: usize, capacity: usize },
    NoMemory,
}

impl fmt::Display for Problem<'_> {
    fn fmt<W: fmt::Write>(&self, f: &mut fmt::Formatter<W>) -> fmt::Result {
        match self {
            Problem::NoCommand => write!(f, "expected a command: run, --help or --version"),
            Problem::UnknownCommand(word) => write!(
                f,
                "{word}: expected a command: run, --help or --version"
            ),
            Problem::UnknownOption(word) => write!(
                f,
                "{word}: expected one of the options --store, --capacity, --text and --out"
            ),
            Problem::NoValue(flag) => write!(f, "{flag}: expected a value behind it"),
            Problem::NoStore(word) => write!(f, "--store {word}: expected gap or pieces"),
            Problem::NoCapacity(word) => write!(
                f,
                "--capacity {word}: expected a number from 0 to 32768"
            ),
            Problem::SecondList(word) => write!(f, "{word}: expected only one list of calls"),
            Problem::Unreadable { path, error } => write!(f, "{path}: cannot be read: {error}"),
            Problem::Unwritable { path, error } => write!(f, "{path}: cannot be written: {error}"),
            Problem::List { path, unread } => write!(f, "{path}: {unread}"),
            Problem::TooLong { length, capacity } => write!(
                f,
                "the text has {length} bytes: expected at most the capacity, {capacity}"
            ),
            Problem::NoMemory => write!(f, "not enough memory"),
        }
    }
}
