// The lines of a listing that hold numbers and words.
ghost use Rattle.std.specs.Prelude.{◌++◌};
ghost use Rattle.ascii.specs.Ascii.{ascii, decimal};
ghost use Rattle.ascii.specs.Put.{Room, Puts};
ghost use Rattle.listing_text.specs.Listing.{head_line, time_line, time_lines, vector_words, kind_words, signal_line};

use ascii::write::{put_decimal, put_text};
use signal::kind::SignalEncoding;

// Words, and a number after them.
pub fn put_named(out: &mut [u8], at: usize, words: &[u8], n: u64) -> usize
    requires { Room (words.now ++ decimal n) at out.old }
    ensures { Puts (words.now ++ decimal n) at out.old result out.new }
{
    let p = put_text(out, at, words);
    put_decimal(out, p, n)
}

// The first line: how many signals, times and blocks the image has.
pub fn put_head(out: &mut [u8], at: usize, signals: u64, times: u64, blocks: u64) -> usize
    requires { Room (head_line signals times blocks) at out.old }
    ensures { Puts (head_line signals times blocks) at out.old result out.new }
{
    let p = put_named(out, at, b"signals ", signals);
    let q = put_named(out, p, b" times ", times);
    let r = put_named(out, q, b" blocks ", blocks);
    put_text(out, r, b"\n")
}

// One time of the table, with its index.
fn put_time(out: &mut [u8], at: usize, index: u64, time: u64) -> usize
    requires { Room (time_line index time) at out.old }
    ensures { Puts (time_line index time) at out.old result out.new }
{
    let p = put_named(out, at, b"time ", index);
    let q = put_named(out, p, b" ", time);
    put_text(out, q, b"\n")
}

// A line for each time of a table.
pub fn put_times(out: &mut [u8], at: usize, times: &[u64]) -> usize
    requires { Room (time_lines 0 times.now) at out.old }
    ensures { Puts (time_lines 0 times.now) at out.old result out.new }
{
    let mut p = at;
    for (i, time) in times.iter().enumerate() {
        p = put_time(out, p, i as u64, *time);
    }
    p
}

// A vector's words. An event is the vector of width 0 and has no class.
fn put_vector(out: &mut [u8], at: usize, width: u32, class: u64, changes: u64) -> usize
    requires { Room (vector_words width class ++ ascii " changes " ++ decimal changes) at out.old }
    ensures { Puts (vector_words width class ++ ascii " changes " ++ decimal changes) at out.old result out.new }
{
    if width == 0 {
        return put_named(out, at, b"event changes ", changes);
    }
    let p = put_named(out, at, b"width ", width as u64);
    let q = put_named(out, p, b" class ", class);
    put_named(out, q, b" changes ", changes)
}

// A signal's words by its kind. Of an absent one nothing is counted.
fn put_kind(out: &mut [u8], at: usize, kind: SignalEncoding, class: u64, changes: u64) -> usize
    requires { Room (kind_words kind class changes) at out.old }
    ensures { Puts (kind_words kind class changes) at out.old result out.new }
{
    match kind {
        SignalEncoding::BitVector(width) => put_vector(out, at, width, class, changes),
        SignalEncoding::Real => put_named(out, at, b"real changes ", changes),
        SignalEncoding::Absent => put_text(out, at, b"absent"),
    }
}

// A signal's number and kind; of one that is not absent, also its class and how many entries are kept.
pub fn put_signal_line(
    out: &mut [u8],
    at: usize,
    signal: u64,
    kind: SignalEncoding,
    class: u64,
    changes: u64,
) -> usize
    requires { Room (signal_line signal kind class changes) at out.old }
    ensures { Puts (signal_line signal kind class changes) at out.old result out.new }
{
    let p = put_named(out, at, b"signal ", signal);
    let q = put_text(out, p, b" ");
    let r = put_kind(out, q, kind, class, changes);
    put_text(out, r, b"\n")
}
