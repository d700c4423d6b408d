// Joins the images in two files and writes the joined image's bytes to standard output. Where the join is refused it writes the line
// `refused N` instead, and where a file cannot be read, or there are not two arguments, its usage.
//
// The join is the crate join's; the contract of `join_files` cites specs/Files.antt.
#![tactic(auto)]

mod file;

ghost use Rattle.std.specs.Prelude.{◌≡◌};
ghost use Rattle.joined.specs.Join.{join_reply, join_after};
ghost use Rattle.wavejoin.specs.Files.{files_of};

use file::read_argument;
use join::join;
use refusal::Refusal;
use std::io;
use std::io::Write;
use std::rt::{Env, Files};
use text::{before, has_argument, print};

fn print_usage<W: Write>(to: &mut W) -> io::Result<()> {
    print(to, b"usage: wavejoin FIRST SECOND\n")
}

fn print_refused<W: Write>(to: &mut W, refusal: Refusal) -> io::Result<()> {
    let number = refusal.number();
    write!(to, "refused {number}\n")
}

// Joins what two files hold. Of a file that is too long one byte more than the limit was read, which may be an image by itself.
fn join_files(first: &[u8], second: &[u8], out: &mut [u8]) -> Result<u32, Refusal>
    ensures { join_after (join_reply result) out.new ≡ files_of first.now second.now out.old }
{
    if 1048576 < first.len() {
        return Err(Refusal::NoImage);
    }
    if 1048576 < second.len() {
        return Err(Refusal::NoImage);
    }
    join(first, second, out)
}

// Writes the joined image, or why there is none.
fn print_joined<W: Write>(
    to: &mut W,
    first: &[u8],
    second: &[u8],
    out: &mut [u8],
) -> io::Result<()> {
    match join_files(first, second, out) {
        Ok(total) => print(to, before(&*out, total as usize)),
        Err(refusal) => print_refused(to, refusal),
    }
}

// Reads the two files into memory that is lent. Each has room for one byte more than the limit, which tells a longer file; the output has
// room for both files, so that no join is refused for want of it.
fn join_arguments<R: Env + Files, W: Write>(
    rt: &R,
    to: &mut W,
    first: &mut [u8; 1048577],
    second: &mut [u8; 1048577],
    out: &mut [u8; 2097152],
) -> io::Result<()> {
    let Some(n) = read_argument(rt, 1, first) else {
        return print_usage(to);
    };
    let Some(m) = read_argument(rt, 2, second) else {
        return print_usage(to);
    };
    print_joined(to, before(&*first, n), before(&*second, m), out)
}

// The arguments are two.
fn has_two(rt: &impl Env) -> bool {
    has_argument(rt, 2) && !has_argument(rt, 3)
}

fn main(rt: HostRuntime) -> io::Result<()> {
    let mut to = rt.stdout();
    if !has_two(&rt) {
        return print_usage(&mut to);
    }
    let mut first = [0u8; 1048577];
    let mut second = [0u8; 1048577];
    let mut out = [0u8; 2097152];
    join_arguments(&rt, &mut to, &mut first, &mut second, &mut out)
}
