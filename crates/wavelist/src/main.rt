// Prints the listing of the image on standard input. Document 01, 'Bench sheet'.
#![tactic(auto)]

ghost use Rattle.std.specs.Prelude.{◌≤◌, OnOk, length};
ghost use Rattle.std.specs.Io.KnownBytes.{Appends};
ghost use Rattle.listing_text.specs.Listing.{listing_limit, listing_of};

use listing::listing_text;
use std::io;
use std::io::Write;
use text::read_full;

// Writes the listing, and nothing else, by way of a buffer that every listing fits into.
fn print_listing<W: Write>(to: &mut W, image: &[u8], out: &mut [u8]) -> io::Result<()>
    requires { listing_limit ≤ length out.old }
    ensures { OnOk result (Appends (W.contents to.old) (W.contents to.new) (listing_of image.now)) }
{
    let n = listing_text(image, out);
    to.write_all(&out[..n])
}

// One byte more than an image may have tells a longer input.
fn main(rt: HostRuntime) -> io::Result<()> {
    let mut input = [0u8; 16385];
    let n = read_full(&mut rt.stdin(), &mut input)?;
    let mut out = [0u8; 262144];
    print_listing(&mut rt.stdout(), &input[..n], &mut out)
}
