// Text in byte slices, and what is read and printed, for the programs. Past the end stand zeros, and parts end where the slice does.
#![tactic(auto)]

pub mod number;

ghost use Rattle.std.specs.Prelude.{◌<◌, ◌≤◌, IfOk, OnOk, length};
ghost use Rattle.std.specs.Io.KnownBytes.{Appends};

use std::env::FillError;
use std::io;
use std::io::{Read, Write};
use std::rt::Env;

pub fn byte_at(s: &[u8], at: usize) -> u8 {
    s.get(at).copied().unwrap_or(0)
}

// The bytes before a place.
pub fn before(s: &[u8], end: usize) -> &[u8] {
    &s[..end.min(s.len())]
}

// The bytes from a place on; all of them where the place is past the end.
pub fn after(s: &[u8], start: usize) -> &[u8] {
    s.get(start..).unwrap_or(s)
}

pub fn between(s: &[u8], start: usize, end: usize) -> &[u8] {
    after(before(s, end), start)
}

// The place after the next byte that equals `stop`, or the end.
pub fn past(s: &[u8], at: usize, stop: u8) -> usize
    ensures { at < length s.now → at < result }
{
    let from = at.min(s.len());
    match s[from..].iter().position(|b| *b == stop) {
        Some(n) => from + n + 1,
        None => at.max(s.len()),
    }
}

// Word k of a line, from 0, with the byte that ends it. Words are parted by one space.
pub fn word(line: &[u8], k: usize) -> &[u8] {
    line.split_inclusive(|b| *b == b' ').nth(k).unwrap_or(b"")
}

// Reads until the buffer is full or the input ends, and answers how many bytes stand at its start. A read may bring fewer than are asked for.
pub fn read_full<R: Read>(from: &mut R, buf: &mut [u8]) -> io::Result<usize>
    ensures { IfOk result (λ n. n ≤ length buf.new) }
{
    let mut done = 0;
    while done < buf.len() {
        let n = from.read(&mut buf[done..])?;
        if n == 0 {
            return Ok(done);
        }
        done += n;
    }
    Ok(done)
}

// Whether the program has an argument of this number. Argument 0 is its name.
pub fn has_argument(rt: &impl Env, i: usize) -> bool {
    let mut none = [0u8; 0];
    match rt.arg(i, &mut none) {
        Err(FillError::NotPresent) => false,
        _ => true,
    }
}

// Writes an argument to the start of the buffer, and answers how many bytes it has: 0 where there is none of this number, or no room for it.
pub fn argument(rt: &impl Env, i: usize, buf: &mut [u8]) -> usize
    ensures { result ≤ length buf.new }
{
    match rt.arg(i, buf) {
        Ok(n) => n,
        Err(_) => 0,
    }
}

pub fn print<W: Write>(to: &mut W, text: &[u8]) -> io::Result<()>
    ensures { OnOk result (Appends (W.contents to.old) (W.contents to.new) text.now) }
{
    to.write_all(text)
}

// A number in decimal.
pub fn print_number<W: Write>(to: &mut W, n: u64) -> io::Result<()> {
    write!(to, "{n}")
}

// A number in hexadecimal, of so many digits at least.
pub fn print_hex<W: Write>(to: &mut W, n: u64, digits: usize) -> io::Result<()> {
    write!(to, "{n:0digits$x}")
}

// Each byte as two digits.
pub fn print_bytes<W: Write>(to: &mut W, s: &[u8]) -> io::Result<()> {
    for b in s {
        let b = *b;
        write!(to, "{b:02x}")?;
    }
    Ok(())
}
