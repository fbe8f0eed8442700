//! Replays stored cases, one a line, and compares: `vectors < CASES`.
//!
//! A line is a group's name, the bytes in hexadecimal (`-`: none) and the answer expected; `#` begins a comment.
#![tactic(auto)]

mod answer;
mod case;
mod replay;

use crate::replay::replay;
use std::io;
use std::io::Read;

fn main(rt: HostRuntime) -> io::Result<()> {
    let heap = rt.alloc();
    let mut bytes = Vec::new(heap);
    rt.stdin().read_to_end(&mut bytes)?;
    let cases = String::from_utf8_lossy(heap, bytes.as_slice())?;
    rt.print(replay(heap, cases.as_str())?)
}
