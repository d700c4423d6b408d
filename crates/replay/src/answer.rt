// Answers: `bad`, or the top class, the stream bytes, and what reading them back shows.
ghost use Rattle.signal.specs.Content.{GivenFits};

use crate::question::{Form, Question, parse};
use change_notation::{GivenValue, RawBytes, RealBits, VcdBytes};
use packed_symbols::{bytes_required, unpack};
use signal::decode::ChangeValue;
use signal::kind::SignalEncoding;
use std::io;
use std::io::Write;
use stream::read::MAX_DELTA;
use stream_length::change_len;
use stream_read::read_change;
use text::number::{big_endian, hex_bytes};
use text::{before, byte_at, print, print_bytes, print_hex, print_number, word};
use value::states::States;

// Writes the change that a value says to the start of out. The top class, and how many bytes were written; none for a bad value or d, and where there
// is no room.
fn write_change<V: GivenValue>(
    out: &mut [u8],
    kind: SignalEncoding,
    d: u32,
    value: V,
) -> Option<(States, usize)>
    requires { GivenFits (V.given value) }
{
    if MAX_DELTA < d {
        return None;
    }
    let decoded = value.decode_to(kind).ok()?;
    if out.len() < change_len(kind.width(), d, decoded.change) {
        return None;
    }
    let end = value.put_change(out, 0, kind, d, decoded.change);
    Some((decoded.states, end))
}

fn write(out: &mut [u8], q: Question, bytes: &[u8]) -> Option<(States, usize)> {
    match q.form {
        Form::Vcd => write_change(out, q.kind, q.d, VcdBytes(bytes)),
        Form::Raw(claim) => write_change(out, q.kind, q.d, RawBytes { claim, bytes }),
        Form::Real => write_change(out, SignalEncoding::Real, q.d, RealBits(big_endian(bytes))),
    }
}

fn letter(symbol: u8) -> u8 {
    byte_at(b"01xzhuwl-", symbol as usize)
}

// Puts letters in the place of symbols.
fn spell(symbols: &mut [u8]) {
    for symbol in symbols {
        *symbol = letter(*symbol);
    }
}

// The symbols of a wider vector, whose packed bytes end the stream.
fn print_vector<W: Write>(to: &mut W, stream: &[u8], width: u32, states: States) -> io::Result<()> {
    if 256 < width {
        return print(to, b"mismatch");
    }
    if stream.len() < bytes_required(states, width) {
        return print(to, b"mismatch");
    }
    let mut symbols = [0u8; 256];
    unpack(&mut symbols, stream, width, states);
    spell(&mut symbols);
    print(to, before(&symbols, width as usize))
}

fn print_value<W: Write>(
    to: &mut W,
    stream: &[u8],
    width: u32,
    value: ChangeValue,
) -> io::Result<()> {
    match value {
        ChangeValue::Event => print(to, b"event"),
        ChangeValue::SingleBit(bit) => print(to, &[letter(bit.0)]),
        ChangeValue::MultiBit(states) => print_vector(to, stream, width, states),
        ChangeValue::Real(bits) => print_hex(to, bits, 16),
    }
}

// What reading the stream shows: one change, with d and up to the end.
fn print_read<W: Write>(to: &mut W, stream: &[u8], kind: SignalEncoding, d: u32) -> io::Result<()> {
    match read_change(stream, 0, kind) {
        Some(back) if back.delta == d && back.next == stream.len() => {
            print_value(to, stream, kind.width(), back.value)
        }
        _ => print(to, b"mismatch"),
    }
}

fn print_change<W: Write>(
    to: &mut W,
    top: States,
    stream: &[u8],
    kind: SignalEncoding,
    d: u32,
) -> io::Result<()> {
    print_number(to, u64::from(top.number()))?;
    print(to, b" ")?;
    print_bytes(to, stream)?;
    print(to, b" ")?;
    print_read(to, stream, kind, d)?;
    print(to, b"\n")
}

pub fn answer<W: Write>(to: &mut W, line: &[u8]) -> io::Result<()> {
    let q = parse(line);
    let mut value = [0u8; 256];
    let size = hex_bytes(&mut value, word(line, q.hex));
    let mut stream = [0u8; 256];
    let kind = q.kind;
    match write(&mut stream, q, before(&value, size)) {
        Some((top, end)) => print_change(to, top, before(&stream, end), kind, q.d),
        None => print(to, b"bad\n"),
    }
}
