// The joined image's bytes.
ghost use Rattle.std.specs.Prelude.{◌≡◌, false, ◌++◌, ◌≤◌, length, take};
ghost use Rattle.std.proofs.lemmas.List.Edits.{sets};
ghost use Rattle.numbers.specs.LittleEndian.{le};
ghost use Rattle.image.specs.Head.{image_limit};
ghost use Rattle.image.specs.Image.{image_bytes};
ghost use Rattle.joined.specs.Join.{joined_image, differs};
ghost use Rattle.walk.specs.Open.{image_of};

use copy::put_part;
use image::layout::{HEAD_BLOCKS, HEAD_KINDS};
use numbers::little_endian::put_u32;
use walk::open::OpenImage;

// The first 16 bytes of the joined head: S and B of the first image, N and the total.
fn put_numbers(first: &[u8], out: &mut [u8], blocks: u32, total: u32) -> usize
    requires { (16 ≤ length first.now) × (16 ≤ length out.old) }
    ensures { (result ≡ 16) × (out.new ≡ sets out.old 0 (take 8 first.now ++ (le 4 blocks ++ le 4 total))) }
{
    let p = put_part(out, 0, first, 0, HEAD_BLOCKS);
    let q = put_u32(out, p, blocks);
    put_u32(out, q, total)
}

// Writes the image of `total` bytes that two alike ones make: its numbers, kinds and blocks of the first, blocks of the second. Each byte is
// written once, in order.
pub fn put_joined(first: OpenImage, second: OpenImage, out: &mut [u8], total: usize)
    requires alike { (differs (image_of first) (image_of second) ≡ false) }
    requires total_value { (total ≡ length (image_bytes (joined_image (image_of first) (image_of second)))) × (total ≤ image_limit) × (total ≤ length out.old) }
    ensures { out.new ≡ sets out.old 0 (image_bytes (joined_image (image_of first.entry) (image_of second.entry))) }
{
    let n = first.block_count() + second.block_count();
    let head = second.first_block();
    let p = put_numbers(first.bytes, out, n, total as u32);
    let q = put_part(
        out,
        p,
        first.bytes,
        HEAD_KINDS,
        first.bytes.len() - HEAD_KINDS,
    );
    put_part(out, q, second.bytes, head, second.bytes.len() - head);
}
