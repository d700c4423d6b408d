// Replays calls that are refused, each condition at its limits. The Rust cannot be asked: `stdout` was computed by oracle/recorder.py,
// from documents 01 and 02.
#![tactic(auto)]

use std::io;

fn main(rt: HostRuntime) -> io::Result<()> {
    sheet::tests::replay(&mut rt.stdin(), &mut rt.stdout(), true)
}
