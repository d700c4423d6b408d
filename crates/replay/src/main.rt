// Replays questions of single values: standard input has one to a line, as in oracle/README.md, and `stdout` the answers: the Rust's, or, where u, w or -
// extends a value, at which the Rust panics, those of oracle/model.py.
#![tactic(auto)]

mod answer;
mod question;

use answer::answer;
use std::io;
use std::io::Write;
use text::read_full;

// Answers each line. The text ends in a line feed.
fn replay<W: Write>(to: &mut W, s: &[u8]) -> io::Result<()> {
    for line in s.split_inclusive(|b| *b == b'\n') {
        answer(to, line)?;
    }
    Ok(())
}

fn zeros() -> [u8; 262144] {
    [0u8; 262144]
}

fn main(rt: HostRuntime) -> io::Result<()> {
    let mut input = zeros();
    let n = read_full(&mut rt.stdin(), &mut input)?;
    replay(&mut rt.stdout(), &input[..n])
}
