// Replays recordings that the Rust answered (its stdin, and its stdout). None has a refusal.
#![tactic(auto)]

use std::io;

fn main(rt: HostRuntime) -> io::Result<()> {
    sheet::tests::replay(&mut rt.stdin(), &mut rt.stdout(), false)
}
