// Answers, one to a line.
use crate::lent::{NUMBER, TIME, bytes_end, stands};
use loaded::{Found, Loaded};
use refusal::Refusal;
use std::io;
use std::io::Write;
use text::{before, print, print_bytes, print_hex, print_number};
use value::real::SignalValue;
use value::states::States;

fn print_count<W: Write>(to: &mut W, name: &[u8], n: u32) -> io::Result<()> {
    print(to, name)?;
    print_number(to, u64::from(n))
}

fn print_class<W: Write>(to: &mut W, class: States) -> io::Result<()> {
    print(to, b" class ")?;
    print_number(to, u64::from(class.number()))
}

// Ends a line; where memory that is to stand was written, says so.
fn print_end<W: Write>(to: &mut W, stand: bool) -> io::Result<()> {
    if stand {
        return print(to, b"\n");
    }
    print(to, b" changed\n")
}

fn print_refused<W: Write>(to: &mut W, refusal: Refusal, stand: bool) -> io::Result<()> {
    print_count(to, b"refused ", refusal.number())?;
    print_end(to, stand)
}

// ---- the combined table

fn print_times<W: Write>(to: &mut W, times: &[u64], count: usize) -> io::Result<()> {
    for time in times.iter().take(count) {
        print(to, b" ")?;
        print_number(to, *time)?;
    }
    Ok(())
}

fn print_all_times<W: Write>(to: &mut W, count: u32, times: &[u64]) -> io::Result<()> {
    print_count(to, b"times ", count)?;
    print(to, b":")?;
    print_times(to, times, count as usize)?;
    print_end(to, stands(times, count as usize, &TIME))
}

pub fn print_table<W: Write>(
    to: &mut W,
    answer: Result<u32, Refusal>,
    times: &[u64],
) -> io::Result<()> {
    match answer {
        Ok(count) => print_all_times(to, count, times),
        Err(refusal) => print_refused(to, refusal, stands(times, 0, &TIME)),
    }
}

// ---- a loaded signal

fn print_indices<W: Write>(to: &mut W, index: &[u32], count: usize) -> io::Result<()> {
    for i in index.iter().take(count) {
        print_count(to, b" ", *i)?;
    }
    Ok(())
}

// The entries' bytes are all that were written; how many, the answer does not tell.
fn print_written<W: Write>(to: &mut W, bytes: &[u8]) -> io::Result<()> {
    let n = bytes_end(bytes);
    if 0 < n {
        print(to, b" ")?;
        print_bytes(to, before(bytes, n))?;
    }
    Ok(())
}

fn print_entries<W: Write>(
    to: &mut W,
    count: u32,
    class: States,
    index: &[u32],
    bytes: &[u8],
) -> io::Result<()> {
    print_count(to, b"entries ", count)?;
    print_class(to, class)?;
    print(to, b":")?;
    print_indices(to, index, count as usize)?;
    print_written(to, bytes)?;
    print_end(to, stands(index, count as usize, &NUMBER))
}

fn both_stand(index: &[u32], bytes: &[u8]) -> bool {
    stands(index, 0, &NUMBER) && bytes_end(bytes) == 0
}

pub fn print_loaded<W: Write>(
    to: &mut W,
    answer: Result<Loaded, Refusal>,
    index: &[u32],
    bytes: &[u8],
) -> io::Result<()> {
    match answer {
        Ok(loaded) => print_entries(to, loaded.count, loaded.class, index, bytes),
        Err(refusal) => print_refused(to, refusal, both_stand(index, bytes)),
    }
}

// ---- the cursor

// A byte that is no symbol is shown as `?`.
fn print_symbols<W: Write>(to: &mut W, symbols: &[u8], count: usize) -> io::Result<()> {
    for symbol in symbols.iter().take(count) {
        let letter = b"01xzhuwl-"
            .get(usize::from(*symbol))
            .copied()
            .unwrap_or(b'?');
        print(to, &[letter])?;
    }
    Ok(())
}

fn print_vector<W: Write>(to: &mut W, class: States, symbols: &[u8]) -> io::Result<()> {
    print_class(to, class)?;
    print(to, b" ")?;
    print_symbols(to, symbols, bytes_end(symbols))?;
    print(to, b"\n")
}

// A real is the f64 of its bits, or a NaN where they are a NaN's.
fn agrees(real: f64, bits: u64) -> bool {
    if real.is_nan() {
        return 0x7ff0_0000_0000_0000 < bits % 0x8000_0000_0000_0000;
    }
    f64::to_bits(real) == bits
}

fn print_real<W: Write>(to: &mut W, real: f64, bits: u64, symbols: &[u8]) -> io::Result<()> {
    print(to, b" real ")?;
    print_hex(to, bits, 16)?;
    if !agrees(real, bits) {
        print(to, b" differs")?;
    }
    print_end(to, bytes_end(symbols) == 0)
}

fn print_event<W: Write>(to: &mut W, symbols: &[u8]) -> io::Result<()> {
    print(to, b" event")?;
    print_end(to, bytes_end(symbols) == 0)
}

fn print_place<W: Write>(to: &mut W, number: u32, time: u64) -> io::Result<()> {
    print_count(to, b"entry ", number)?;
    print(to, b" time ")?;
    print_number(to, time)
}

fn print_found<W: Write>(to: &mut W, found: Found, symbols: &[u8]) -> io::Result<()> {
    print_place(to, found.number, found.time)?;
    match found.entry.value {
        SignalValue::Event => print_event(to, symbols),
        SignalValue::BitVec(class) => print_vector(to, class, symbols),
        SignalValue::Real(real) => print_real(to, real, found.entry.bits, symbols),
    }
}

fn print_none<W: Write>(to: &mut W, symbols: &[u8]) -> io::Result<()> {
    print(to, b"none")?;
    print_end(to, bytes_end(symbols) == 0)
}

pub fn print_cursor<W: Write>(
    to: &mut W,
    answer: Result<Option<Found>, Refusal>,
    symbols: &[u8],
) -> io::Result<()> {
    match answer {
        Ok(Some(found)) => print_found(to, found, symbols),
        Ok(None) => print_none(to, symbols),
        Err(refusal) => print_refused(to, refusal, bytes_end(symbols) == 0),
    }
}
