// The calls that read an image. Document 01, 'Block and image', 'Loaded signal' and 'Turned back' (11, 4, 9).
//
// Any bytes may be given: no function has a `requires`. Each tests once that the opener accepts them; a caller that reads much of one image
// makes an `OpenImage` of it and calls the functions of crates walk_part, walk_table, loader and cursor, which take one. The contracts cite
// loaded/specs.
#![tactic(auto)]

ghost use Rattle.std.specs.Prelude.{◌≡◌, MatchResult, false};
ghost use Rattle.loaded.specs.Opener.{open_of, stream_of};
ghost use Rattle.loaded.specs.Reader.{load_reply, load_after, load_of, table_reply, table_after, table_of, cursor_reply, cursor_after, cursor_of};

use cursor::cursor_in;
use loaded::{Found, Loaded};
use loader::load::load_in;
use refusal::Refusal;
use signal::SignalRef;
use walk::open::OpenImage;
use walk_part::stream_in;
use walk_table::table_in;

// The image that bytes are, or the refusal with which a call answers bytes that are none.
fn image_of<'a>(bytes: &'a [u8], refusal: Refusal) -> Result<OpenImage<'a>, Refusal>
    ensures { MatchResult result (λ i. i.bytes.now ≡ bytes.now) (λ r. (r ≡ refusal) × (open_of bytes.now ≡ false)) }
{
    match OpenImage::open(bytes) {
        Some(image) => Ok(image),
        None => Err(refusal),
    }
}

// Loads a signal: its entries' indices in the combined table and their bytes. 11, 4, 9.
pub fn load(
    image: &[u8],
    signal: SignalRef,
    index: &mut [u32],
    bytes: &mut [u8],
) -> Result<Loaded, Refusal>
    ensures { load_after (load_reply result) index.new bytes.new ≡ load_of image.now signal.0 index.old bytes.old }
{
    load_in(image_of(image, Refusal::NoImage)?, signal.0, index, bytes)
}

// The combined table of all blocks' times. 11, 9.
pub fn table(image: &[u8], out: &mut [u64]) -> Result<u32, Refusal>
    ensures { table_after (table_reply result) out.new ≡ table_of image.now out.old }
{
    table_in(image_of(image, Refusal::NoImage)?, out)
}

// The stream of a signal in a block, as the part of the image after its class byte; empty where there is none.
pub fn stream(image: &[u8], block: u32, signal: SignalRef) -> &[u8]
    ensures { result.now ≡ stream_of image.now block signal.0 }
{
    match OpenImage::open(image) {
        Some(image) => stream_in(image, block, signal.0),
        None => &image[0..0],
    }
}

// The last entry of a signal at or before a time, or nothing; a vector's symbols go into out. 11, 4, 9.
pub fn cursor(
    image: &[u8],
    signal: SignalRef,
    time: u64,
    out: &mut [u8],
) -> Result<Option<Found>, Refusal>
    ensures { cursor_after (cursor_reply result) out.new ≡ cursor_of image.now signal.0 time out.old }
{
    cursor_in(image_of(image, Refusal::NoImage)?, signal.0, time, out)
}
