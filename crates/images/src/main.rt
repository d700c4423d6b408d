// Asks the reader about images. Standard input has one question to a line; each is answered on standard output, as oracle/reader.py says.
// What is lent holds a pattern before each call, and where a call wrote what it must not, `changed` ends the line.
#![tactic(auto)]

mod ask;
mod lent;
mod show;

use ask::ask;
use std::io;
use std::io::Write;
use text::number::hex_bytes;
use text::{before, byte_at, read_full, word};

// Which word of a question has the image, its last one.
fn image_word(name: u8) -> usize {
    match name {
        b'o' => 1,
        b't' => 2,
        b's' => 3,
        _ => 4,
    }
}

// Writes a question's image to the start of space, and answers its length. A `-` stands for the image of the line before, of n bytes.
fn read_image(space: &mut [u8], n: usize, hex: &[u8]) -> usize {
    if byte_at(hex, 0) == b'-' {
        return n;
    }
    hex_bytes(space, hex)
}

fn take_line<W: Write>(to: &mut W, line: &[u8], space: &mut [u8], n: usize) -> io::Result<usize> {
    let size = read_image(space, n, word(line, image_word(byte_at(line, 0))));
    ask(to, line, before(&*space, size))?;
    Ok(size)
}

// Takes each line. The text ends in a line feed.
fn take_lines<W: Write>(to: &mut W, sheet: &[u8], space: &mut [u8]) -> io::Result<()> {
    let mut n = 0;
    for line in sheet.split_inclusive(|b| *b == b'\n') {
        n = take_line(to, line, space, n)?;
    }
    Ok(())
}

fn take_sheet<W: Write>(to: &mut W, sheet: &[u8]) -> io::Result<()> {
    let mut space = [0u8; 1024];
    take_lines(to, sheet, &mut space)
}

fn zeros() -> [u8; 425984] {
    [0u8; 425984]
}

fn main(rt: HostRuntime) -> io::Result<()> {
    let mut sheet = zeros();
    let n = read_full(&mut rt.stdin(), &mut sheet)?;
    take_sheet(&mut rt.stdout(), &sheet[..n])
}
