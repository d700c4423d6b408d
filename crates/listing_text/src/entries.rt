// The lines of a signal's entries.
ghost use Rattle.std.specs.Prelude.{◌≡◌, true, map, ◌≤◌, length};
ghost use Rattle.ascii.specs.Put.{Room, Puts};
ghost use Rattle.value.specs.Class.{class_number, all_symbols};
ghost use Rattle.signal.specs.Kind.{width_of};
ghost use Rattle.stream.specs.Entries.{entry};
ghost use Rattle.loaded.specs.EntryBytes.{entry_of};
ghost use Rattle.loaded.specs.Reader.{entry_reply};
ghost use Rattle.entry_answer.specs.Answer.{is_entry};
ghost use Rattle.listing_text.specs.Listing.{letter_of, content_words, entry_line, entry_lines};
ghost use Rattle.listing_text.specs.Written.{shown_words, entries_read, entries_there};

use ascii::write::{put_decimal, put_hex, put_text};
use entry::length::entry_len;
use entry_answer::entry_value;
use signal::kind::SignalEncoding;
use value::real::{Entry, SignalValue};
use value::states::States;

// The letters of the symbols 0 to 8.
const LETTERS: [u8; 9] = [b'0', b'1', b'x', b'z', b'h', b'u', b'w', b'l', b'-'];

fn letter(symbol: u8) -> u8
    requires { symbol ≤ 8 }
    ensures { result ≡ letter_of symbol }
{
    LETTERS[symbol as usize]
}

fn put_letters(out: &mut [u8], at: usize, symbols: &[u8]) -> usize
    requires { (all_symbols symbols.now ≡ true) × Room (map letter_of symbols.now) at out.old }
    ensures { Puts (map letter_of symbols.now) at out.old result out.new }
{
    for (i, symbol) in symbols.iter().enumerate() {
        out[at + i] = letter(*symbol);
    }
    at + symbols.len()
}

// An answered entry, whose symbols stand beside it.
pub fn put_shown(out: &mut [u8], at: usize, shown: Entry, symbols: &[u8]) -> usize
    requires { (all_symbols symbols.now ≡ true) × Room (shown_words (entry_reply shown) symbols.now) at out.old }
    ensures { Puts (shown_words (entry_reply shown) symbols.now) at out.old result out.new }
{
    let value = shown.value;
    match value {
        SignalValue::Event => at,
        SignalValue::BitVec(_) => {
            let p = put_text(out, at, b" ");
            put_letters(out, p, symbols)
        }
        SignalValue::Real(_) => {
            let p = put_text(out, at, b" ");
            put_hex(out, p, shown.bits)
        }
    }
}

// The content of an entry's bytes.
fn put_content(
    out: &mut [u8],
    at: usize,
    bytes: &[u8],
    kind: SignalEncoding,
    class: States,
    symbols: &mut [u8],
) -> usize
    requires { (is_entry kind (class_number class) bytes.now ≡ true) × (width_of kind ≤ length symbols.old) × Room (content_words (entry_of kind (class_number class) bytes.now)) at out.old }
    ensures { Puts (content_words (entry_of kind (class_number class) bytes.now)) at out.old result out.new }
{
    match entry_value(bytes, kind, class, symbols) {
        Ok(Some(shown)) => {
            let width = kind.width() as usize;
            put_shown(out, at, shown, &symbols[..width])
        }
        Ok(None) => at,
        Err(_) => at,
    }
}

fn put_entry(
    out: &mut [u8],
    at: usize,
    index: u32,
    bytes: &[u8],
    kind: SignalEncoding,
    class: States,
    symbols: &mut [u8],
) -> usize
    requires { (is_entry kind (class_number class) bytes.now ≡ true) × (width_of kind ≤ length symbols.old) × Room (entry_line (entry index (entry_of kind (class_number class) bytes.now))) at out.old }
    ensures { Puts (entry_line (entry index (entry_of kind (class_number class) bytes.now))) at out.old result out.new }
{
    let p = put_decimal(out, at, index as u64);
    let q = put_content(out, p, bytes, kind, class, symbols);
    put_text(out, q, b"\n")
}

// A line for each entry. The bytes of the entries stand one after the other.
pub fn put_entries(
    out: &mut [u8],
    at: usize,
    index: &[u32],
    bytes: &[u8],
    kind: SignalEncoding,
    class: States,
    symbols: &mut [u8],
) -> usize
    requires { (entries_there kind (class_number class) index.now bytes.now ≡ true) × (width_of kind ≤ length symbols.old) × Room (entry_lines (entries_read kind (class_number class) index.now bytes.now)) at out.old }
    ensures { Puts (entry_lines (entries_read kind (class_number class) index.now bytes.now)) at out.old result out.new }
{
    let size = entry_len(kind, class);
    let mut p = at;
    let mut from = 0;
    for number in index {
        let to = from + size;
        p = put_entry(out, p, *number, &bytes[from..to], kind, class, symbols);
        from = to;
    }
    p
}
