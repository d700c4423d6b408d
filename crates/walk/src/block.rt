// The blocks of an accepted image, one after the other, and their times. A caller that has no more than the byte at which a block begins reads
// it by the functions of bytes and that place; who knows its number too has a `Block`, whose methods call them.
ghost use Rattle.std.specs.Prelude.{◌≡◌, ℕ, suc, ◌<◌, ◌≤◌, length, get_or};
ghost use Rattle.lists.specs.Last.{last_or};
ghost use Rattle.loaded.specs.Opener.{block_at};
ghost use Rattle.walk.specs.Walk.{Opened, image_in, block_place, BlockHere, SomeBlock, TimeHere};
ghost use Rattle.walk.specs.Open.{image_of, block_of};

use crate::open::{Block, OpenImage};
use image::layout::{BLOCK_TIMES, head_size, times_place};
use numbers::little_endian::{get_u32, get_u64};

// Where the next block begins; after the last one, where the image ends.
pub fn next_block(image: &[u8], at: usize) -> usize
    requires { Opened image.now × SomeBlock at image.now }
    ensures { (n : ℕ) → BlockHere n at image.now → result ≡ block_place (image_in image.now) (suc n) }
{
    at + get_u32(image, at) as usize
}

// How many times a block has.
pub fn times_in(image: &[u8], at: usize) -> u32
    requires { Opened image.now × SomeBlock at image.now }
    ensures { (n : ℕ) → BlockHere n at image.now → result ≡ length (block_at (image_in image.now) n).times }
{
    get_u32(image, at + BLOCK_TIMES)
}

// A block's time number i.
pub fn time_at(image: &[u8], at: usize, i: u32) -> u64
    requires { Opened image.now × TimeHere at i image.now }
    ensures { (n : ℕ) → BlockHere n at image.now → result ≡ get_or (block_at (image_in image.now) n).times i 0 }
{
    let signals = OpenImage::opened(image).signal_count() as usize;
    get_u64(image, at + times_place(signals) + 8 * (i as usize))
}

// A block's last time.
pub fn last_time(image: &[u8], at: usize) -> u64
    requires { Opened image.now × SomeBlock at image.now }
    ensures { (n : ℕ) → BlockHere n at image.now → result ≡ last_or 0 (block_at (image_in image.now) n).times }
{
    let held = times_in(image, at);
    time_at(image, at, held - 1)
}

impl<'a> OpenImage<'a> {
    // Where the first block begins; without blocks, where the image ends.
    pub fn first_block(self) -> usize
        ensures { result ≡ block_place (image_of self.entry) 0 }
    {
        head_size(self.signal_count() as usize)
    }

    // A block, by its number from 0. The blocks before it are passed one after the other, since only its size leads from one to the next.
    pub fn block(self, number: u32) -> Block<'a>
        requires { number < length (image_of self).blocks }
        ensures { (result.image ≡ self.entry) × (result.number ≡ number) }
    {
        let image = self;
        let mut at = image.first_block();
        for k in 0..number {
            let passed = Block {
                image,
                number: k,
                at,
            };
            at = passed.end();
        }
        Block { image, number, at }
    }

    // The block that begins at a place, with its number.
    pub fn block_from(self, place: usize) -> Block<'a>
        requires { SomeBlock place self.bytes.now }
        ensures found { (result.image ≡ self.entry) × (result.at ≡ place) }
        ensures number { (n : ℕ) → BlockHere n place self.entry.bytes.now → result.number ≡ n }
    {
        let image = self;
        let mut number: u32 = 0;
        let mut at = image.first_block();
        // so many blocks that their number has 32 bits
        prove!(image.block_count() <= u32::MAX);
        // a while: which block begins there is not known before
        while at != place {
            let passed = Block { image, number, at };
            at = passed.end();
            number += 1;
        }
        Block { image, number, at }
    }

    // Where a block begins; at the number of blocks, where the image ends.
    pub fn block_start(self, number: u32) -> usize
        requires { number ≤ length (image_of self).blocks }
        ensures { result ≡ block_place (image_of self.entry) number }
    {
        if number == 0 {
            return self.first_block();
        }
        self.block(number - 1).end()
    }
}

impl<'a> Block<'a> {
    // Where the next block begins; after the last one, where the image ends.
    pub fn end(self) -> usize
        ensures { result ≡ block_place (image_of self.entry.image) (suc self.entry.number) }
    {
        next_block(self.image.bytes, self.at)
    }

    // How many times it has.
    pub fn time_count(self) -> u32
        ensures { result ≡ length (block_of self.entry).times }
    {
        times_in(self.image.bytes, self.at)
    }

    // Its time number i.
    pub fn time(self, i: u32) -> u64
        requires { i < length (block_of self).times }
        ensures { result ≡ get_or (block_of self.entry).times i 0 }
    {
        time_at(self.image.bytes, self.at, i)
    }

    // Its last time.
    pub fn last_time(self) -> u64
        ensures { result ≡ last_or 0 (block_of self.entry).times }
    {
        last_time(self.image.bytes, self.at)
    }
}
