// Prints what the cursor shows of every signal of the image on standard input at TIME; its usage, where the arguments are not one decimal
// number below 2^64.
//
// The text is the crate cursor_text's; its contract cites specs/At.antt there. What a number is stands in the crate digits.
#![tactic(auto)]

ghost use Rattle.std.specs.Prelude.{◌≤◌, OnOk, length};
ghost use Rattle.std.specs.Io.KnownBytes.{Appends};
ghost use Rattle.cursor_text.specs.At.{at_limit, at_of};

use cursor_text::at_text;
use digits::decimal;
use std::io;
use std::io::{Read, Write};
use std::rt::Env;
use text::{argument, has_argument, read_full};

fn print_usage<W: Write>(to: &mut W) -> io::Result<()> {
    to.write_all(b"usage: waveat TIME\n")
}

// The time that the argument says. On Linux an argument has at most 131,071 bytes, so any fits, with all the zeros in front of a number. A
// longer one would come as an empty one, which is no number.
fn time_asked(rt: &impl Env) -> Option<u64> {
    let mut word = [0u8; 131072];
    let n = argument(rt, 1, &mut word);
    decimal(&word[..n], u64::MAX)
}

// Writes the text, and nothing else, by way of a buffer that every such text fits into.
fn print_at<W: Write>(to: &mut W, image: &[u8], t: u64, out: &mut [u8]) -> io::Result<()>
    requires { at_limit ≤ length out.old }
    ensures { OnOk result (Appends (W.contents to.old) (W.contents to.new) (at_of image.now t)) }
{
    let n = at_text(image, t, out);
    to.write_all(&out[..n])
}

fn no_text() -> [u8; 524288] {
    [0u8; 524288]
}

// One byte more than an image may have tells a longer input.
fn print_input<R: Read, W: Write>(from: &mut R, to: &mut W, t: u64) -> io::Result<()> {
    let mut input = [0u8; 16385];
    let n = read_full(from, &mut input)?;
    let mut out = no_text();
    print_at(to, &input[..n], t, &mut out)
}

// The arguments are one.
fn has_one(rt: &impl Env) -> bool {
    has_argument(rt, 1) && !has_argument(rt, 2)
}

fn main(rt: HostRuntime) -> io::Result<()> {
    let mut to = rt.stdout();
    if !has_one(&rt) {
        return print_usage(&mut to);
    }
    match time_asked(&rt) {
        Some(t) => print_input(&mut rt.stdin(), &mut to, t),
        None => print_usage(&mut to),
    }
}
