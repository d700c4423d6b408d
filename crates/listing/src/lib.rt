// The listing of an image, which `wavelist` prints. Document 01, 'Bench sheet'. The contracts cite specs/Into.antt, and specs/Listing.antt of
// crate `listing_text`, which writes the text of an accepted image.
//
// `listing` takes any bytes and any buffer. A listing has at most 262,144 bytes (crate `listing_text`, proofs/BoundLaws.antt), so the text is
// made in a buffer of that length, and copied where it fits.
#![tactic(auto)]

ghost use Rattle.std.specs.Prelude.{◌≡◌, ◌≤◌, length};
ghost use Rattle.ascii.specs.Put.{Puts};
ghost use Rattle.listing_text.specs.Listing.{listing_of, listing_limit};
ghost use Rattle.listing.specs.Into.{listing_after, into, listed_reply};

use ascii::write::put_text;
use listing_text::accepted::image_text;
use opener::open;

// How many bytes an image has at most; a longer input is refused.
const MOST_READ: usize = 16384;

// Writes the listing to the start of a buffer that every listing fits into, and answers its length.
pub fn listing_text(image: &[u8], out: &mut [u8]) -> usize
    requires { listing_limit ≤ length out.old }
    ensures { Puts (listing_of image.now) 0 out.old result out.new }
{
    if MOST_READ < image.len() || !open(image) {
        return put_text(out, 0, b"refused 11\n");
    }
    image_text(image, out)
}

// Makes the text in a buffer that every listing fits into, and copies it to the start of out, if it fits; answers its length.
fn listing_by(image: &[u8], text: &mut [u8], out: &mut [u8]) -> Option<usize>
    requires { listing_limit ≤ length text.old }
    ensures { listing_after (listed_reply result) out.new ≡ into (listing_of image.now) out.old }
{
    let n = listing_text(image, text);
    if out.len() < n {
        return None;
    }
    Some(put_text(out, 0, &text[..n]))
}

// Writes the listing to the start of out, if it fits, and answers its length.
pub fn listing(image: &[u8], out: &mut [u8]) -> Option<usize>
    ensures { listing_after (listed_reply result) out.new ≡ into (listing_of image.now) out.old }
{
    let mut text = [0u8; 262144];
    listing_by(image, &mut text, out)
}
