// The stream of a signal in a block of an accepted image. Document 01, 'Block and image'. The contracts cite walk/specs/Walk.antt.
#![tactic(auto)]

ghost use Rattle.std.specs.Prelude.{◌≡◌, ℕ, suc, get_or};
ghost use Rattle.image.specs.Block.{offsets_from};
ghost use Rattle.loaded.specs.Opener.{stream_of};
ghost use Rattle.walk.specs.Walk.{Opened, image_in, parts_in, data_place, part_place, BlockHere, SomeBlock, SignalHere, PartHere};

use image::{SignalDataOffset, layout};
use numbers::little_endian::get_u32;
use walk::block::{next_block, times_in};
use walk::open::{Block, OpenImage};

// Where a stream begins and ends, and the top class that its block gives it. A signal without changes has no bytes, and class 0.
#[derive(Clone, Copy)]
pub struct StreamPart {
    pub from: usize,
    pub to: usize,
    pub top: u8,
}

const NO_PART: StreamPart = StreamPart {
    from: 0,
    to: 0,
    top: 0,
};

// The offset that a block keeps for a signal.
fn offset_at(image: &[u8], at: usize, signal: u32) -> SignalDataOffset
    requires { Opened image.now × SignalHere at signal image.now }
    ensures { (n : ℕ) → BlockHere n at image.now → result.0 ≡ get_or (offsets_from 0 (parts_in (image_in image.now) n)) signal 0 }
{
    SignalDataOffset(get_u32(image, at + layout::offset_place(signal as usize)))
}

// Where a block's data begin.
fn data_place(image: &[u8], at: usize) -> usize
    requires { Opened image.now × SomeBlock at image.now }
    ensures { (n : ℕ) → BlockHere n at image.now → result ≡ data_place (image_in image.now) n }
{
    let signals = OpenImage::opened(image).signal_count() as usize;
    let times = times_in(image, at) as usize;
    at + layout::data_start(signals, times)
}

// Where a signal's part ends: where the next part begins, or the block ends.
fn part_end(image: &[u8], at: usize, signal: u32) -> usize
    requires { Opened image.now × SignalHere at signal image.now }
    ensures { (n : ℕ) → BlockHere n at image.now → result ≡ part_place (image_in image.now) n (suc signal) }
{
    let signals = OpenImage::opened(image).signal_count();
    for g in signal + 1..signals {
        let offset = offset_at(image, at, g);
        if offset.0 != 0 {
            return data_place(image, at) + (offset.0 as usize) - 1;
        }
    }
    next_block(image, at)
}

// A signal's stream in the block that begins at a place.
pub fn part_at(image: &[u8], at: usize, signal: u32) -> StreamPart
    requires { Opened image.now × SomeBlock at image.now }
    ensures { (n : ℕ) → BlockHere n at image.now → PartHere result.from result.to result.top n signal image.now }
{
    if OpenImage::opened(image).signal_count() <= signal {
        return NO_PART;
    }
    let offset = offset_at(image, at, signal);
    if offset.0 == 0 {
        return NO_PART;
    }
    let class_at = data_place(image, at) + (offset.0 as usize) - 1;
    let to = part_end(image, at, signal);
    StreamPart {
        from: class_at + 1,
        to,
        top: image[class_at],
    }
}

// A signal's stream in a block.
pub fn part_in(block: Block, signal: u32) -> StreamPart
    ensures { PartHere result.from result.to result.top block.entry.number signal block.entry.image.bytes.now }
{
    part_at(block.image.bytes, block.at, signal)
}

// The stream of a signal, by block number from 0, as that part of the image; empty if the block or the signal does not exist, or it has no
// changes there.
pub fn stream_in<'a>(image: OpenImage<'a>, block: u32, signal: u32) -> &'a [u8]
    ensures { result.now ≡ stream_of image.entry.bytes.now block signal }
{
    let bytes = image.bytes;
    if image.block_count() <= block {
        return &bytes[0..0];
    }
    let part = part_in(image.block(block), signal);
    &bytes[part.from..part.to]
}
