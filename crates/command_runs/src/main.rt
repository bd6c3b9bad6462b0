// Carries out the command lines that standard input holds, one after the other, as guyotchopper
// would, so that one run of the gate holds many: each is printed behind a $, then what it prints, or
// the problem that guyotchopper would tell on standard error.
#![tactic(auto)]

use command::run;
use std::io;
use std::io::{BufRead, BufReader};

fn main(rt: HostRuntime) -> io::Result<()> {
    let heap = rt.alloc();
    for line in BufReader::new(heap, rt.stdin())?.lines(heap) {
        let line = line?;
        println!(rt; "$ guyotchopper {line}")?;
        carry_out(&rt, line.as_str())?;
    }
    Ok(())
}

fn carry_out(rt: &HostRuntime, line: &str) -> io::Result<()> {
    let heap = rt.alloc();
    let mut words = Vec::new(heap);
    for word in line.split_whitespace() {
        words.push(String::from_str(heap, word)?)?;
    }
    if let Err(problem) = run(rt, &words) {
        println!(rt; "problem: {problem}")?;
    }
    Ok(())
}
