// One block of an image, read at a place. Document 01, 'Block and image'.
//
// The contracts cite specs/Blocks.antt; that its tests are those of crate codec's `walk_block` is proved in proofs/BlockLaws.antt.
#![tactic(auto)]

ghost use Rattle.std.specs.Prelude.{◌≡◌, ◌+◌, ◌≤◌, ◌<◌, length};
ghost use Rattle.reading.specs.Decided.{is_yes};
ghost use Rattle.reading.specs.Times.{end_of};
ghost use Rattle.parts.specs.Parts.{kinds_at};
ghost use Rattle.image.specs.Block.{block_size};
ghost use Rattle.image.specs.Head.{head_size};
ghost use Rattle.blocks.specs.Blocks.{times_fit?, front_at, body_at, next_block_at};

use image::layout::{
    BLOCK_OFFSETS, BLOCK_SIGNALS, BLOCK_TIMES, HEAD_KINDS, data_start, times_place,
};
use numbers::little_endian::get_u32;
use parts::are_parts;
use reading::times::times_at;

// How many bytes and how many times a block has.
#[derive(Clone, Copy)]
pub struct BlockFront {
    pub size: usize,
    pub times: u32,
}

// The place after a block and its last time.
#[derive(Clone, Copy)]
pub struct NextBlock {
    pub next: usize,
    pub last: u64,
}

// Whether a block has as many times as it must: one at least, and up to B.
fn times_fit(limit: u32, times: u32) -> bool
    ensures { result ≡ is_yes (times_fit? limit times) }
{
    if times == 0 {
        return false;
    }
    times <= limit
}

// The front of a block: its sizes fit the signals, B and the bytes that are there.
fn front_at(s: &[u8], at: usize, signals: usize, limit: u32) -> Option<BlockFront>
    requires { (at ≤ length s.now) × (signals ≤ 65536) }
    ensures { result ≡ front_at signals limit s.now at }
{
    if s.len() - at < times_place(signals) {
        return None;
    }
    let size = get_u32(s, at) as usize;
    let times = get_u32(s, at + BLOCK_TIMES);
    if get_u32(s, at + BLOCK_SIGNALS) as usize != signals {
        return None;
    }
    if size < data_start(signals, times as usize) {
        return None;
    }
    if !times_fit(limit, times) {
        return None;
    }
    if s.len() - at < size {
        return None;
    }
    Some(BlockFront { size, times })
}

// Times and parts of a block of so many bytes and times.
fn body_at(
    s: &[u8],
    at: usize,
    signals: usize,
    size: usize,
    times: u32,
    end: Option<u64>,
) -> Option<NextBlock>
    requires { (at + size ≤ length s.now) × (block_size signals times 0 ≤ size) × (head_size signals ≤ length s.now) × (0 < times) × (times ≤ 65535) }
    ensures { result ≡ body_at signals size times s.now at end }
{
    let front = data_start(signals, times as usize);
    let last = times_at(s, at + times_place(signals), times as usize, end)?;
    if are_parts(
        s,
        HEAD_KINDS,
        at + BLOCK_OFFSETS,
        at + front,
        size - front,
        signals,
        times,
    ) {
        Some(NextBlock {
            next: at + size,
            last,
        })
    } else {
        None
    }
}

// The block at a place, if there is one; `end` is the last time of the block before, if one came before.
pub fn block_at(
    s: &[u8],
    at: usize,
    signals: usize,
    limit: u32,
    end: Option<u64>,
) -> Option<NextBlock>
    requires { (at ≤ length s.now) × (signals ≤ 65536) × (limit ≤ 65535) × (head_size signals ≤ length s.now) }
    ensures { result ≡ next_block_at limit (kinds_at signals s.now 16) (end_of end) s.now at }
{
    let front = front_at(s, at, signals, limit)?;
    body_at(s, at, signals, front.size, front.times, end)
}
