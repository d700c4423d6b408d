// One image out of two: the head of the first with N summed and the new total, then the blocks in order.
//
// Any bytes may be given: `join` has no `requires`. The contracts cite crate joined's specs/Join.antt.
#![tactic(auto)]

mod put;
mod tests;

ghost use Rattle.std.specs.Prelude.{◌≡◌};
ghost use Rattle.refusal.specs.Refusal.{refused_number};
ghost use Rattle.recording.specs.Memory as memory;
ghost use Rattle.joined.specs.Join.{join_tests, join_reply, join_after, join_in, join_of};
ghost use Rattle.walk.specs.Open.{image_of};

use crate::put::put_joined;
use crate::tests::{differs, lacks_room, starts_early, total_of};
use refusal::Refusal;
use walk::open::OpenImage;

// What refuses a join of accepted images, the first of these that does: 14, 15, 16, 8.
fn refusal(first: OpenImage, second: OpenImage, room: usize) -> Result<(), Refusal>
    ensures { refused_number result ≡ memory.first (join_tests (image_of first.entry) (image_of second.entry) room) }
{
    if differs(first, second) {
        return Err(Refusal::Unlike);
    }
    if first.block_count() == 0 {
        return Err(Refusal::NoBlock);
    }
    if starts_early(first, second) {
        return Err(Refusal::Overlap);
    }
    if lacks_room(total_of(first, second), room) {
        return Err(Refusal::ImageFull);
    }
    Ok(())
}

// Joins accepted images. 14, 15, 16, 8; a refused join leaves the output.
pub fn join_in(first: OpenImage, second: OpenImage, out: &mut [u8]) -> Result<u32, Refusal>
    ensures { join_after (join_reply result) out.new ≡ join_in (image_of first.entry) (image_of second.entry) out.old }
{
    refusal(first, second, out.len())?;
    let total = total_of(first, second);
    put_joined(first, second, out, total);
    Ok(total as u32)
}

// Writes the image that two images make, one after the other, to the start of the output, and answers its total. 11, 14, 15, 16, 8.
pub fn join(first: &[u8], second: &[u8], out: &mut [u8]) -> Result<u32, Refusal>
    ensures { join_after (join_reply result) out.new ≡ join_of first.now second.now out.old }
{
    // opening reads all of the bytes, so the second are opened only where the first are an image
    let Some(first) = OpenImage::open(first) else {
        return Err(Refusal::NoImage);
    };
    let Some(second) = OpenImage::open(second) else {
        return Err(Refusal::NoImage);
    };
    join_in(first, second, out)
}
