// Questions put to the reader: `open HEX`, `table ROOM HEX`, `load SIGNAL INDEX BYTES HEX`, `stream BLOCK SIGNAL HEX`,
// `cursor SIGNAL TIME ROOM HEX`.
use crate::lent::{BYTE, NUMBER, TIME};
use crate::show::{print_cursor, print_loaded, print_table};
use opener::open;
use reader::{cursor, load, stream, table};
use signal::SignalRef;
use std::io;
use std::io::Write;
use text::number::number;
use text::{byte_at, print, print_bytes, word};

fn ask_open<W: Write>(to: &mut W, image: &[u8]) -> io::Result<()> {
    if open(image) {
        return print(to, b"yes\n");
    }
    print(to, b"no\n")
}

fn ask_table<W: Write>(to: &mut W, image: &[u8], room: u64, out: &mut [u64]) -> io::Result<()> {
    let n = room as usize;
    if out.len() < n {
        return print(to, b"not so many\n");
    }
    let answer = table(image, &mut out[0..n]);
    print_table(to, answer, &*out)
}

fn signal(n: u64) -> SignalRef {
    SignalRef((n % 4294967296) as u32)
}

fn ask_load<W: Write>(
    to: &mut W,
    image: &[u8],
    number: u64,
    entries: u64,
    size: u64,
    index: &mut [u32],
    bytes: &mut [u8],
) -> io::Result<()> {
    let i = entries as usize;
    let b = size as usize;
    if index.len() < i || bytes.len() < b {
        return print(to, b"not so many\n");
    }
    let answer = load(image, signal(number), &mut index[0..i], &mut bytes[0..b]);
    print_loaded(to, answer, &*index, &*bytes)
}

fn ask_stream<W: Write>(to: &mut W, image: &[u8], block: u64, number: u64) -> io::Result<()> {
    print_bytes(
        to,
        stream(image, (block % 4294967296) as u32, signal(number)),
    )?;
    print(to, b"\n")
}

fn ask_cursor<W: Write>(
    to: &mut W,
    image: &[u8],
    number: u64,
    time: u64,
    room: u64,
    symbols: &mut [u8],
) -> io::Result<()> {
    let n = room as usize;
    if symbols.len() < n {
        return print(to, b"not so many\n");
    }
    let answer = cursor(image, signal(number), time, &mut symbols[0..n]);
    print_cursor(to, answer, &*symbols)
}

// A question's numbers, in their order.
fn numbers(line: &[u8]) -> [u64; 3] {
    [
        number(word(line, 1)),
        number(word(line, 2)),
        number(word(line, 3)),
    ]
}

// Puts a question, by its first letter, and lends of this memory what it says.
fn put<W: Write>(
    to: &mut W,
    name: u8,
    n: &[u64; 3],
    image: &[u8],
    times: &mut [u64],
    index: &mut [u32],
    bytes: &mut [u8],
) -> io::Result<()> {
    match name {
        b'o' => ask_open(to, image),
        b't' => ask_table(to, image, n[0], times),
        b's' => ask_stream(to, image, n[0], n[1]),
        b'l' => ask_load(to, image, n[0], n[1], n[2], index, bytes),
        _ => ask_cursor(to, image, n[0], n[1], n[2], bytes),
    }
}

// Puts a question, with the pattern in all that may be lent.
pub fn ask<W: Write>(to: &mut W, line: &[u8], image: &[u8]) -> io::Result<()> {
    let mut times = [TIME; 64];
    let mut index = [NUMBER; 64];
    let mut bytes = [BYTE; 2048];
    let n = numbers(line);
    put(
        to,
        byte_at(line, 0),
        &n,
        image,
        &mut times,
        &mut index,
        &mut bytes,
    )
}
