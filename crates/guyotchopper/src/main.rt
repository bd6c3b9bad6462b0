// guyotchopper: corrects a text by a list of calls. A problem is told on standard error, and the
// status is then 1.
#![tactic(auto)]

use command::run;
use std::process::ExitCode;
use std::{env, io};

fn main(rt: HostRuntime) -> io::Result<ExitCode> {
    let words = env::args(&rt)?.skip(1).collect::<Vec<String>>(rt.alloc())?;
    match run(&rt, &words) {
        Ok(()) => Ok(ExitCode::SUCCESS),
        Err(problem) => {
            eprintln!(rt; "guyotchopper: {problem}")?;
            Ok(ExitCode::FAILURE)
        }
    }
}
