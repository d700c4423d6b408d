// The text of an accepted image.
ghost use Rattle.std.specs.Prelude.{[], ◌≤◌, length};
ghost use Rattle.ascii.specs.Put.{Room, Puts};
ghost use Rattle.loaded.specs.Loading.{table_from};
ghost use Rattle.walk.specs.Walk.{image_in};
ghost use Rattle.listing_text.specs.Listing.{head_line, time_lines, image_text};
ghost use Rattle.listing_text.specs.Written.{Taken, Enough};

use crate::lines::{put_head, put_times};
use crate::signals::put_signals;
use walk::open::OpenImage;
use walk_table::{table_in, table_length};

fn put_head_of(image: &[u8], out: &mut [u8]) -> usize
    requires { Taken image.now × Room (head_line (length (image_in image.now).kinds) (length (table_from [] (image_in image.now).blocks)) (length (image_in image.now).blocks)) 0 out.old }
    ensures { Puts (head_line (length (image_in image.now).kinds) (length (table_from [] (image_in image.now).blocks)) (length (image_in image.now).blocks)) 0 out.old result out.new }
{
    let opened = OpenImage { bytes: image };
    let signals = opened.signal_count() as u64;
    let times = table_length(opened) as u64;
    put_head(out, 0, signals, times, opened.block_count() as u64)
}

fn put_table(image: &[u8], out: &mut [u8], at: usize, times: &mut [u64]) -> usize
    requires { Taken image.now × (2048 ≤ length times.old) × Room (time_lines 0 (table_from [] (image_in image.now).blocks)) at out.old }
    ensures { Puts (time_lines 0 (table_from [] (image_in image.now).blocks)) at out.old result out.new }
{
    let opened = OpenImage { bytes: image };
    let n = table_length(opened) as usize;
    // Every table fits into times, so none is refused.
    let _ = table_in(opened, times);
    put_times(out, at, &times[..n])
}

fn put_image(
    image: &[u8],
    out: &mut [u8],
    times: &mut [u64],
    index: &mut [u32],
    bytes: &mut [u8],
    symbols: &mut [u8],
) -> usize
    requires { Taken image.now × (2048 ≤ length times.old) × Enough index.old bytes.old symbols.old × Room (image_text (image_in image.now)) 0 out.old }
    ensures { Puts (image_text (image_in image.now)) 0 out.old result out.new }
{
    let p = put_head_of(image, out);
    let q = put_table(image, out, p, times);
    put_signals(image, out, q, index, bytes, symbols)
}

// The whole text, at the start of out.
pub fn image_text(image: &[u8], out: &mut [u8]) -> usize
    requires { Taken image.now × Room (image_text (image_in image.now)) 0 out.old }
    ensures { Puts (image_text (image_in image.now)) 0 out.old result out.new }
{
    let mut times = [0u64; 2048];
    let mut index = [0u32; 16384];
    let mut bytes = [0u8; 65536];
    let mut symbols = [0u8; 65536];
    put_image(image, out, &mut times, &mut index, &mut bytes, &mut symbols)
}
