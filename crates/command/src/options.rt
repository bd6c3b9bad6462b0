// What the words of a command line ask for.
ghost use Rattle.std.specs.Prelude.{◌≡◌, ◌≤◌, IfOk, Some};
ghost use Rattle.line_parts.specs.Numbers.{read_number};
ghost use Rattle.command.specs.Options.{make_name};

use crate::help::{HELP, VERSION};
use crate::over::Make;
use crate::problem::Problem;
use call_list::read_number;
use store::checks::MAX_CAPACITY;

#[derive(Clone, Copy)]
pub(crate) enum Command<'a> {
    // prints a text, and does nothing else
    Show(&'a str),
    Run(RunOptions<'a>),
}

// A correction: over which store, of which text, by which calls, and where the text goes.
#[derive(Clone, Copy)]
pub(crate) struct RunOptions<'a> {
    pub(crate) make: Make,
    pub(crate) capacity: usize,
    pub(crate) text: Option<&'a str>,
    pub(crate) out: Option<&'a str>,
    pub(crate) calls: Option<&'a str>,
}

impl Default for RunOptions<'_> {
    fn default() -> Self {
        RunOptions {
            make: Make::Gap,
            capacity: MAX_CAPACITY,
            text: None,
            out: None,
            calls: None,
        }
    }
}

impl<'a> RunOptions<'a> {
    fn set(&mut self, flag: Flag, value: &'a str) -> Result<(), Problem<'a>> {
        match flag {
            Flag::Store => self.make = Make::try_from(value)?,
            Flag::Capacity => self.capacity = capacity_of(value)?,
            Flag::Text => self.text = Some(value),
            Flag::Out => self.out = Some(value),
        }
        Ok(())
    }

    fn set_list(&mut self, word: &'a str) -> Result<(), Problem<'a>> {
        if word.starts_with("-") {
            return Err(Problem::UnknownOption(word));
        }
        if self.calls.is_some() {
            return Err(Problem::SecondList(word));
        }
        self.calls = Some(word);
        Ok(())
    }
}

pub(crate) fn parse<'a>(words: &'a [String]) -> Result<Command<'a>, Problem<'a>> {
    let [first, rest @ ..] = words else {
        return Err(Problem::NoCommand);
    };
    match first.as_str() {
        "--help" | "-h" | "help" => Ok(Command::Show(HELP)),
        "--version" => Ok(Command::Show(VERSION)),
        "run" if asks_for_help(rest) => Ok(Command::Show(HELP)),
        "run" => Ok(Command::Run(parse_run(rest)?)),
        other => Err(Problem::UnknownCommand(other)),
    }
}

fn asks_for_help(words: &[String]) -> bool {
    words.iter().any(|word| word.as_str() == "--help")
}

// An option whose value is the next word.
#[derive(Clone, Copy)]
enum Flag {
    Store,
    Capacity,
    Text,
    Out,
}

impl Flag {
    // An Option and no TryFrom: a word that names no option is no error.
    fn named(word: &str) -> Option<Flag> {
        match word {
            "--store" => Some(Flag::Store),
            "--capacity" => Some(Flag::Capacity),
            "--text" => Some(Flag::Text),
            "--out" => Some(Flag::Out),
            _ => None,
        }
    }
}

fn parse_run<'a>(words: &'a [String]) -> Result<RunOptions<'a>, Problem<'a>> {
    let mut options = RunOptions::default();
    let mut words = words.iter();
    while let Some(word) = words.next() {
        let word = word.as_str();
        match Flag::named(word) {
            Some(flag) => {
                let value = words.next().ok_or(Problem::NoValue(word))?;
                options.set(flag, value.as_str())?;
            }
            None => options.set_list(word)?,
        }
    }
    Ok(options)
}

impl<'a> TryFrom<&'a str> for Make {
    type Error = Problem<'a>;

    ghost try_from_gives = { λ word r. IfOk r (λ m. word.now ≡ make_name m) };

    fn try_from(word: &'a str) -> Result<Make, Problem<'a>> {
        match word {
            "gap" => Ok(Make::Gap),
            "pieces" => Ok(Make::Pieces),
            _ => Err(Problem::NoStore(word)),
        }
    }
}

fn capacity_of(word: &str) -> Result<usize, Problem<'_>>
    ensures { IfOk result (λ n. (read_number word.now ≡ Some n) × (n ≤ 32768)) }
{
    read_number(word.as_bytes())
        .filter(|n| *n <= MAX_CAPACITY)
        .ok_or(Problem::NoCapacity(word))
}
