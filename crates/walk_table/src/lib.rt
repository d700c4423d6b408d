// The combined table of an accepted image. Document 01, 'Loaded signal'. The contracts cite walk/specs/Walk.antt and loaded/specs/Reader.antt.
#![tactic(auto)]

ghost use Rattle.std.specs.Prelude.{◌≡◌, [], ◌+◌, ◌-◌, ◌≤◌, length, drop};
ghost use Rattle.std.proofs.lemmas.List.Edits.{sets};
ghost use Rattle.loaded.specs.Loading.{table_from};
ghost use Rattle.loaded.specs.Reader.{table_reply, table_after, table_in};
ghost use Rattle.walk.specs.Walk.{end_held, shared_times};
ghost use Rattle.walk.specs.Open.{image_of, block_of};

use refusal::Refusal;
use walk::open::{Block, OpenImage};

// How many of a block's times the table before it has already, which ends with `end` if it has a time: 1 if the block starts at that end.
pub fn shared(block: Block, end: Option<u64>) -> u32
    ensures { result ≡ shared_times (end_held end) (block_of block.entry).times }
{
    match end {
        Some(end) => u32::from(block.time(0) == end),
        None => 0,
    }
}

// How many times the combined table has.
pub fn table_length(image: OpenImage) -> u32
    ensures { result ≡ length (table_from [] (image_of image.entry).blocks) }
{
    let mut at = image.first_block();
    let mut end = None;
    let mut n: u32 = 0;
    for number in 0..image.block_count() {
        let block = Block { image, number, at };
        n += block.time_count() - shared(block, end);
        end = Some(block.last_time());
        at = block.end();
    }
    n
}

// Writes a block's times without the first `skip` from a place on, and answers the place after them.
fn put_times(block: Block, skip: u32, out: &mut [u64], place: usize) -> usize
    requires { (skip ≤ length (block_of block).times) × (place + (length (block_of block).times - skip) ≤ length out.old) }
    ensures { (result ≡ place + (length (block_of block.entry).times - skip)) × (out.new ≡ sets out.old place (drop skip (block_of block.entry).times)) }
{
    let mut p = place;
    for i in skip..block.time_count() {
        out[p] = block.time(i);
        p += 1;
    }
    p
}

// Writes the combined table, which fits.
fn put_table(image: OpenImage, out: &mut [u64])
    requires { length (table_from [] (image_of image).blocks) ≤ length out.old }
    ensures { out.new ≡ sets out.old 0 (table_from [] (image_of image.entry).blocks) }
{
    let mut at = image.first_block();
    let mut end = None;
    let mut p: usize = 0;
    for number in 0..image.block_count() {
        let block = Block { image, number, at };
        p = put_times(block, shared(block, end), out, p);
        end = Some(block.last_time());
        at = block.end();
    }
}

// Writes the combined table and answers its length; 9, and nothing is written, where it does not fit.
pub fn table_in(image: OpenImage, out: &mut [u64]) -> Result<u32, Refusal>
    ensures { table_after (table_reply result) out.new ≡ table_in (image_of image.entry) out.old }
{
    let n = table_length(image);
    if out.len() < n as usize {
        return Err(Refusal::OutputShort);
    }
    put_table(image, out);
    Ok(n)
}
