// Published values, through the code: LEB128 (DWARF's examples, 0, 624485 and the largest 32-bit number), little-endian numbers, and values
// that a signal takes or refuses. The file `stdout` was written by hand, from the documents.
#![tactic(auto)]

use numbers::leb128::{get_leb128, leb128_len, put_leb128};
use numbers::little_endian::{get_u32, get_u64, put_u32, put_u64};
use refusal::Refusal;
use signal::decode::DecodedChange;
use signal::kind::SignalEncoding;
use signal_decode::{decode_raw, decode_vcd};
use std::io;
use std::io::Write;
use text::{before, print, print_bytes, print_hex, print_number};

fn print_count<W: Write>(to: &mut W, name: &[u8], n: u64) -> io::Result<()> {
    print(to, name)?;
    print_number(to, n)
}

fn print_line<W: Write>(to: &mut W, name: &[u8], n: u64) -> io::Result<()> {
    print_count(to, name, n)?;
    print(to, b"\n")
}

fn print_read<W: Write>(to: &mut W, read: Option<(u32, usize)>) -> io::Result<()> {
    match read {
        Some((v, next)) => {
            print_count(to, b" ", u64::from(v))?;
            print_line(to, b" ", next as u64)
        }
        None => print(to, b" bad\n"),
    }
}

// The number that stands in bytes, and how many it takes.
fn read_leb128<W: Write>(to: &mut W, s: &[u8]) -> io::Result<()> {
    print(to, b"read ")?;
    print_bytes(to, s)?;
    print_read(to, get_leb128(s, 0))
}

fn print_leb128<W: Write>(to: &mut W, v: u32, s: &[u8]) -> io::Result<()> {
    print_count(to, b"leb128 ", u64::from(v))?;
    print(to, b" ")?;
    print_bytes(to, s)?;
    print(to, b"\n")?;
    read_leb128(to, s)
}

// A number's bytes, and the number that they read as.
fn leb128<W: Write>(to: &mut W, v: u32) -> io::Result<()> {
    let mut buf = [0u8; 8];
    if 8 < leb128_len(v) {
        return print(to, b"leb128 too long\n");
    }
    let end = put_leb128(&mut buf, 0, v);
    print_leb128(to, v, before(&buf, end))
}

fn leb128_values<W: Write>(to: &mut W) -> io::Result<()> {
    for v in [0, 2, 127, 128, 129, 130, 12857, 624485, u32::MAX] {
        leb128(to, v)?;
    }
    Ok(())
}

// Longer forms, a number of 33 bits, and forms that are cut off.
fn leb128_refused<W: Write>(to: &mut W) -> io::Result<()> {
    read_leb128(to, b"\x80\x00")?;
    read_leb128(to, b"\x80\x80\x00")?;
    read_leb128(to, b"\xff\xff\xff\xff\x1f")?;
    read_leb128(to, b"\x80")?;
    read_leb128(to, b"")
}

// A number's bytes, and the number that they read as, in so many hexadecimal digits.
fn print_bits<W: Write>(
    to: &mut W,
    name: &[u8],
    bytes: &[u8],
    n: u64,
    digits: usize,
) -> io::Result<()> {
    print(to, name)?;
    print_bytes(to, bytes)?;
    print(to, b" ")?;
    print_hex(to, n, digits)?;
    print(to, b"\n")
}

fn little_endian_32<W: Write>(to: &mut W, v: u32) -> io::Result<()> {
    let mut buf = [0u8; 4];
    put_u32(&mut buf, 0, v);
    print_bits(to, b"u32 ", &buf, u64::from(get_u32(&buf, 0)), 8)
}

fn little_endian_64<W: Write>(to: &mut W, v: u64) -> io::Result<()> {
    let mut buf = [0u8; 8];
    put_u64(&mut buf, 0, v);
    print_bits(to, b"u64 ", &buf, get_u64(&buf, 0), 16)
}

// The class that the top class rises to, or the refusal's number.
fn print_decoded<W: Write>(to: &mut W, decoded: Result<DecodedChange, Refusal>) -> io::Result<()> {
    match decoded {
        Ok(change) => print_line(to, b"' good ", u64::from(change.states.number())),
        Err(refusal) => print_line(to, b"' bad ", u64::from(refusal.number())),
    }
}

fn vcd<W: Write>(to: &mut W, width: u32, value: &[u8]) -> io::Result<()> {
    print_count(to, b"vcd ", u64::from(width))?;
    print(to, b" '")?;
    print(to, value)?;
    print_decoded(to, decode_vcd(SignalEncoding::BitVector(width), value))
}

fn print_raw<W: Write>(to: &mut W, width: u32, claim: u32, value: &[u8]) -> io::Result<()> {
    print_count(to, b"raw ", u64::from(width))?;
    print_count(to, b" ", u64::from(claim))?;
    print(to, b" '")?;
    print_bytes(to, value)
}

fn raw<W: Write>(to: &mut W, width: u32, claim: u32, value: &[u8]) -> io::Result<()> {
    print_raw(to, width, claim, value)?;
    print_decoded(
        to,
        decode_raw(SignalEncoding::BitVector(width), claim, value),
    )
}

fn vcd_values<W: Write>(to: &mut W) -> io::Result<()> {
    vcd(to, 1, b"B")?;
    vcd(to, 2, b"0b")?;
    vcd(to, 2, b"b")?;
    vcd(to, 2, b"101")?;
    vcd(to, 0, b"")?;
    vcd(to, 0, b"x")?;
    vcd(to, 0, b"xx")
}

// Short values: u, w and - extend, h and l do not.
fn vcd_extended<W: Write>(to: &mut W) -> io::Result<()> {
    vcd(to, 2, b"u")?;
    vcd(to, 2, b"U")?;
    vcd(to, 3, b"w1")?;
    vcd(to, 4, b"-")?;
    vcd(to, 4, b"0bw")?;
    vcd(to, 2, b"h")?;
    vcd(to, 3, b"l1")
}

// A byte short, no such class, a symbol 9, and a width whose bits do not fit 32 bits.
fn raw_values<W: Write>(to: &mut W) -> io::Result<()> {
    raw(to, 2, 2, b"")?;
    raw(to, 2, 3, b"\x00")?;
    raw(to, 2, 2, b"\x09")?;
    raw(to, 2, 2, b"\x90")?;
    raw(to, 0x40000001, 2, b"\x00")
}

fn print_all<W: Write>(to: &mut W) -> io::Result<()> {
    leb128_values(to)?;
    leb128_refused(to)?;
    little_endian_32(to, 0x12345678)?;
    little_endian_64(to, 0x0123456789abcdef)?;
    vcd_values(to)?;
    vcd_extended(to)?;
    raw_values(to)
}

fn main(rt: HostRuntime) -> io::Result<()> {
    print_all(&mut rt.stdout())
}
