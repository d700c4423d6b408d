// What the cursor shows of every signal of an image at a time, as text, which `waveat` prints. The cursor is that of documents 01 and
// 02 (a); the text is ours. The contracts cite specs/At.antt.
//
// `at_text` takes any bytes and opens them once. A text has at most 524,288 bytes (proofs/BoundLaws.antt).
#![tactic(auto)]

mod signals;

ghost use Rattle.std.specs.Prelude.{◌≤◌, length};
ghost use Rattle.ascii.specs.Put.{Room, Puts};
ghost use Rattle.walk.specs.Walk.{image_in};
ghost use Rattle.listing_text.specs.Written.{Taken};
ghost use Rattle.cursor_text.specs.At.{at_lines, at_of, at_limit};

use crate::signals::put_signals;
use ascii::write::put_text;
use opener::open;

// How many bytes an image has at most; a longer input is refused.
const MOST_READ: usize = 16384;

// The text of an accepted image. No vector of it is wider than the array.
fn image_text(image: &[u8], t: u64, out: &mut [u8]) -> usize
    requires { Taken image.now × Room (at_lines (image_in image.now) t 0 (image_in image.now).kinds) 0 out.old }
    ensures { Puts (at_lines (image_in image.now) t 0 (image_in image.now).kinds) 0 out.old result out.new }
{
    let mut symbols = [0u8; 65536];
    put_signals(image, t, out, &mut symbols)
}

// Writes the text to the start of a buffer that every such text fits into, and answers its length.
pub fn at_text(image: &[u8], t: u64, out: &mut [u8]) -> usize
    requires { at_limit ≤ length out.old }
    ensures { Puts (at_of image.now t) 0 out.old result out.new }
{
    if MOST_READ < image.len() || !open(image) {
        return put_text(out, 0, b"refused 11\n");
    }
    image_text(image, t, out)
}
