//! `trace COMMAND < FILE`: what a trace file holds.
#![tactic(auto)]

mod columns;
mod command;
mod escape;
mod refusal;
mod report;
mod shape;
mod table;

use crate::command::Command;
use crate::report::report;
use std::io::Read;
use std::{env, io};

/// One byte more than a trace file may have, so that a longer one shows.
const READ_LIMIT: u64 = 0x8000_0000;

/// All of standard input, up to the limit.
fn input(rt: &HostRuntime) -> io::Result<Vec<u8>> {
    let mut bytes = Vec::new(rt.alloc());
    rt.stdin().take(READ_LIMIT).read_to_end(&mut bytes)?;
    Ok(bytes)
}

fn main(rt: HostRuntime) -> io::Result<()> {
    let heap = rt.alloc();
    let words: Vec<String> = env::args(&rt)?.skip(1).collect(heap)?;
    match Command::parse(words.as_slice()) {
        Ok(command) => {
            let bytes = input(&rt)?;
            rt.print(report(heap, command, bytes.as_slice())?)
        }
        Err(error) => rt.println(error),
    }
}
