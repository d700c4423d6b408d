// The lines of the signals of an accepted image.
ghost use Rattle.std.specs.Prelude.{◌<◌, length};
ghost use Rattle.ascii.specs.Put.{Room, Puts};
ghost use Rattle.loaded.specs.Opener.{kind_at};
ghost use Rattle.loaded.specs.Loading.{loads};
ghost use Rattle.walk.specs.Walk.{image_in};
ghost use Rattle.listing_text.specs.Listing.{signal_lines, signals_from};
ghost use Rattle.listing_text.specs.Written.{Taken, Enough};

use crate::entries::put_entries;
use crate::lines::put_signal_line;
use loader::load::load_in;
use walk::open::OpenImage;

// A signal's line, and a line for each kept entry. Only an absent signal is refused by loading.
fn put_signal(
    image: &[u8],
    signal: u32,
    out: &mut [u8],
    at: usize,
    index: &mut [u32],
    bytes: &mut [u8],
    symbols: &mut [u8],
) -> usize
    requires { Taken image.now × (signal < length (image_in image.now).kinds) × Enough index.old bytes.old symbols.old × Room (signal_lines signal (kind_at (image_in image.now) signal) (loads signal (image_in image.now).blocks)) at out.old }
    ensures { Puts (signal_lines signal (kind_at (image_in image.now) signal) (loads signal (image_in image.now).blocks)) at out.old result out.new }
{
    let opened = OpenImage { bytes: image };
    let kind = opened.kind_at(signal);
    match load_in(opened, signal, index, bytes) {
        Ok(loaded) => {
            let p = put_signal_line(
                out,
                at,
                signal as u64,
                kind,
                loaded.class.number() as u64,
                loaded.count as u64,
            );
            let n = loaded.count as usize;
            put_entries(out, p, &index[..n], bytes, kind, loaded.class, symbols)
        }
        Err(_) => put_signal_line(out, at, signal as u64, kind, 0, 0),
    }
}

// Those of all signals.
pub fn put_signals(
    image: &[u8],
    out: &mut [u8],
    at: usize,
    index: &mut [u32],
    bytes: &mut [u8],
    symbols: &mut [u8],
) -> usize
    requires { Taken image.now × Enough index.old bytes.old symbols.old × Room (signals_from (image_in image.now) 0 (image_in image.now).kinds) at out.old }
    ensures { Puts (signals_from (image_in image.now) 0 (image_in image.now).kinds) at out.old result out.new }
{
    let mut p = at;
    let opened = OpenImage { bytes: image };
    for g in 0..opened.signal_count() {
        p = put_signal(image, g, out, p, index, bytes, symbols);
    }
    p
}
