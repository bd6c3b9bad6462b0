// Carrying a command out. The words, the list and the text are all read, and the text is corrected,
// before anything is written.
use crate::options::{Command, RunOptions, parse};
use crate::over::correct_over;
use crate::problem::{Problem, STANDARD_INPUT};
use call_list::{CallList, line_text, read_list, text_line};
use corrections::calls::Call;
use corrections::correct::{Corrected, Trouble};
use std::io::Read;
use std::{fs, io};

pub fn run<'a>(rt: &HostRuntime, words: &'a [String]) -> Result<(), Problem<'a>> {
    match parse(words)? {
        Command::Show(text) => printed(rt.print(text)),
        Command::Run(options) => run_list(rt, options),
    }
}

fn printed<'a>(res: io::Result<()>) -> Result<(), Problem<'a>> {
    let path = "standard output";
    res.map_err(|error| Problem::Unwritable { path, error })
}

fn run_list<'a>(rt: &HostRuntime, options: RunOptions<'a>) -> Result<(), Problem<'a>> {
    let list = calls_of(rt, options)?;
    let start = match options.text {
        Some(path) => read_file(rt, path)?,
        None => Vec::new(rt.alloc()),
    };
    let corrected = corrected(rt, options, &start, &list.calls)?;
    if let Some(path) = options.out {
        write_file(rt, path, &corrected.text)?;
    }
    printed(print_all(rt, &list, &corrected))
}

fn corrected<'a>(
    rt: &HostRuntime,
    options: RunOptions<'a>,
    start: &[u8],
    calls: &[Call],
) -> Result<Corrected, Problem<'a>> {
    let capacity = options.capacity;
    let length = start.len();
    let res = correct_over(rt.alloc(), options.make, capacity, start, calls);
    res.map_err(|trouble| match trouble {
        Trouble::TooLong(_) => Problem::TooLong { length, capacity },
        Trouble::NoMemory => Problem::NoMemory,
    })
}

fn calls_of<'a>(rt: &HostRuntime, options: RunOptions<'a>) -> Result<CallList, Problem<'a>> {
    let (path, bytes) = match options.calls {
        Some(path) => (path, read_file(rt, path)?),
        None => (STANDARD_INPUT, read_input(rt)?),
    };
    read_list(rt.alloc(), &bytes).map_err(|unread| Problem::List { path, unread })
}

fn read_file<'a>(rt: &HostRuntime, path: &'a str) -> Result<Vec<u8>, Problem<'a>> {
    fs::read(rt, path).map_err(|error| Problem::Unreadable { path, error })
}

fn read_input<'a>(rt: &HostRuntime) -> Result<Vec<u8>, Problem<'a>> {
    let path = STANDARD_INPUT;
    let mut bytes = Vec::new(rt.alloc());
    let read = rt.stdin().read_to_end(&mut bytes);
    read.map_err(|error| Problem::Unreadable { path, error })?;
    Ok(bytes)
}

fn write_file<'a>(rt: &HostRuntime, path: &'a str, bytes: &[u8]) -> Result<(), Problem<'a>> {
    fs::write(rt, path, bytes).map_err(|error| Problem::Unwritable { path, error })
}

// A line for each call, and then the text.
fn print_all(rt: &HostRuntime, list: &CallList, corrected: &Corrected) -> io::Result<()> {
    let heap = rt.alloc();
    let asked = list.lines.iter().zip(&list.calls);
    for ((number, call), answer) in asked.zip(&corrected.answers) {
        rt.println(line_text(heap, *number, call, answer)?)?;
    }
    rt.println(text_line(heap, &corrected.text)?)
}
