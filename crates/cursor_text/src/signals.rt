// The lines of the signals of an accepted image.
ghost use Rattle.std.specs.Prelude.{◌≡◌, true, ◌≤◌, ◌<◌, length};
ghost use Rattle.ascii.specs.Put.{Room, Puts};
ghost use Rattle.value.specs.Class.{all_symbols};
ghost use Rattle.loaded.specs.Opener.{kind_at};
ghost use Rattle.loaded.specs.Loading.{loads};
ghost use Rattle.loaded.specs.Reader.{found, entry_reply, cursor_reply};
ghost use Rattle.walk.specs.Walk.{image_in};
ghost use Rattle.listing_text.specs.Written.{Taken};
ghost use Rattle.cursor_text.specs.At.{at_line, at_lines};
ghost use Rattle.cursor_text.specs.Written.{answer_words, AnswerFine};

use ascii::write::put_text;
use cursor::cursor_in;
use listing_text::entries::put_shown;
use listing_text::lines::put_named;
use loaded::Found;
use refusal::Refusal;
use walk::open::OpenImage;

// An entry's number, time and content.
fn put_found(out: &mut [u8], at: usize, shown: Found, symbols: &[u8]) -> usize
    requires { (all_symbols symbols.now ≡ true) × Room (answer_words (found shown.number shown.time (entry_reply shown.entry)) symbols.now) at out.old }
    ensures { Puts (answer_words (found shown.number shown.time (entry_reply shown.entry)) symbols.now) at out.old result out.new }
{
    let p = put_named(out, at, b"entry ", shown.number as u64);
    let q = put_named(out, p, b" time ", shown.time);
    put_shown(out, q, shown.entry, symbols)
}

// What the cursor answered. Only an absent signal is refused: the buffer has room for the symbols of any vector.
fn put_answer(
    out: &mut [u8],
    at: usize,
    answer: Result<Option<Found>, Refusal>,
    symbols: &[u8],
) -> usize
    requires { AnswerFine (cursor_reply answer) symbols.now × Room (answer_words (cursor_reply answer) symbols.now) at out.old }
    ensures { Puts (answer_words (cursor_reply answer) symbols.now) at out.old result out.new }
{
    match answer {
        Ok(Some(shown)) => put_found(out, at, shown, symbols),
        Ok(None) => put_text(out, at, b"none"),
        Err(_) => put_text(out, at, b"absent"),
    }
}

// The line of one signal.
fn put_signal(
    image: &[u8],
    signal: u32,
    t: u64,
    out: &mut [u8],
    at: usize,
    symbols: &mut [u8],
) -> usize
    requires { Taken image.now × (signal < length (image_in image.now).kinds) × (65536 ≤ length symbols.old) × Room (at_line signal (kind_at (image_in image.now) signal) (loads signal (image_in image.now).blocks) t) at out.old }
    ensures { Puts (at_line signal (kind_at (image_in image.now) signal) (loads signal (image_in image.now).blocks) t) at out.old result out.new }
{
    let opened = OpenImage { bytes: image };
    let kind = opened.kind_at(signal);
    let width = kind.width() as usize;
    let answer = cursor_in(opened, signal, t, symbols);
    let p = put_named(out, at, b"signal ", signal as u64);
    let q = put_text(out, p, b" ");
    let r = put_answer(out, q, answer, &symbols[..width]);
    put_text(out, r, b"\n")
}

// Those of all signals, at the start of out.
pub fn put_signals(image: &[u8], t: u64, out: &mut [u8], symbols: &mut [u8]) -> usize
    requires { Taken image.now × (65536 ≤ length symbols.old) × Room (at_lines (image_in image.now) t 0 (image_in image.now).kinds) 0 out.old }
    ensures { Puts (at_lines (image_in image.now) t 0 (image_in image.now).kinds) 0 out.old result out.new }
{
    let mut p = 0;
    let opened = OpenImage { bytes: image };
    for g in 0..opened.signal_count() {
        p = put_signal(image, g, t, out, p, symbols);
    }
    p
}
