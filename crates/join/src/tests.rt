// What refuses a join of accepted images.
ghost use Rattle.std.specs.Prelude.{◌≡◌, false, ◌||◌, map, ◌≤◌, ◌*◌, length, ltb};
ghost use Rattle.std.proofs.Math.Option.{none};
ghost use Rattle.lists.specs.Same.{same};
ghost use Rattle.image.specs.Head.{kind_number, image_limit};
ghost use Rattle.image.specs.Image.{image_bytes};
ghost use Rattle.codec.specs.Ends.{end_after};
ghost use Rattle.joined.specs.Join as join;
ghost use Rattle.joined.specs.Join.{joined_image, no_block, early};
ghost use Rattle.walk.specs.Open.{image_of};

use image::kind::kind_number;
use image::limits::MAX_TOTAL;
use walk::open::OpenImage;

// Whether as many signals are of the same kinds.
fn same_kinds(first: OpenImage, second: OpenImage) -> bool
    requires { (length (image_of second).kinds ≡ length (image_of first).kinds) }
    ensures { result ≡ same (map kind_number (image_of first.entry).kinds) (map kind_number (image_of second.entry).kinds) }
{
    for i in 0..first.signal_count() {
        if kind_number(first.kind_at(i)) != kind_number(second.kind_at(i)) {
            return false;
        }
    }
    true
}

// 14: S, B or a kind differs.
pub fn differs(first: OpenImage, second: OpenImage) -> bool
    ensures { result ≡ join.differs (image_of first.entry) (image_of second.entry) }
{
    if first.block_limit() != second.block_limit() {
        return true;
    }
    if first.signal_count() != second.signal_count() {
        return true;
    }
    !same_kinds(first, second)
}

// 16: the second starts before the first, which has a block, ends.
pub fn starts_early(first: OpenImage, second: OpenImage) -> bool
    requires { (no_block (image_of first).blocks ≡ false) }
    ensures { result ≡ early (end_after none (image_of first.entry).blocks) (image_of second.entry).blocks }
{
    if second.block_count() == 0 {
        return false;
    }
    let end = first.block(first.block_count() - 1).last_time();
    second.block(0).time(0) < end
}

// How many bytes the image of two alike ones has.
pub fn total_of(first: OpenImage, second: OpenImage) -> usize
    requires { (join.differs (image_of first) (image_of second) ≡ false) }
    ensures { (result ≡ length (image_bytes (joined_image (image_of first.entry) (image_of second.entry)))) × (result ≤ 2 * image_limit) }
{
    first.bytes.len() + (second.bytes.len() - second.first_block())
}

// 8: a total over 1,073,741,824, or over the room.
pub fn lacks_room(total: usize, room: usize) -> bool
    ensures { result ≡ (ltb image_limit total || ltb room total) }
{
    if MAX_TOTAL < total {
        return true;
    }
    room < total
}
