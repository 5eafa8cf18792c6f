//! A member of the committee. It reads requests, one to a line, and answers each in words.
#![tactic(auto)]

mod answer;
mod frames;
mod parse;
mod request;
mod show;
mod tally;

use std::env;

// The words of the command line as one request, or none where there are no words.
fn command_line(rt: &HostRuntime) -> anyhow::Result<String> {
    let mut line = String::new(rt.alloc());
    for word in env::args(rt)?.skip(1) {
        if !line.is_empty() {
            line.push(' ')?;
        }
        line.push_str(word.as_str())?;
    }
    Ok(line)
}

fn run(rt: &HostRuntime) -> anyhow::Result<()> {
    let line = command_line(rt)?;
    if !line.is_empty() {
        return answer::answer(rt, 1, line.as_str());
    }
    for (number, line) in (1..u64::MAX).zip(rt.lines(rt.alloc())) {
        answer::answer(rt, number, line?.as_str())?;
    }
    Ok(())
}

fn main(rt: HostRuntime) -> anyhow::Result<()> {
    run(&rt)
}
