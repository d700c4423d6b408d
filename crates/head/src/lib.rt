// The writer of the head of an image without blocks. Document 01, 'Block and image'.
//
// The loop over the signals' records is its caller's: it makes a turn of `put_kind` for each, after `put_numbers`.
#![tactic(auto)]

ghost use Rattle.std.specs.Prelude.{◌≡◌, ◌+◌, ◌≤◌, length};
ghost use Rattle.image.specs.Head.{kind_place};
ghost use Rattle.head.specs.Kinds.{head_numbers, kind_put};

use image::kind::kind_number;
use image::layout::{HEAD_BLOCKS, HEAD_LIMIT, HEAD_SIGNALS, HEAD_TOTAL, head_size, kind_place};
use numbers::little_endian::put_u32;
use recording::SignalRecord;

// Writes the four numbers: S, B, 0 and the total, which is the head's size.
pub fn put_numbers(image: &mut [u8], limit: u32, signals: u32)
    requires { (signals ≤ 65536) × (16 ≤ length image.old) }
    ensures { image.new ≡ head_numbers limit signals image.old }
{
    put_u32(image, HEAD_SIGNALS, signals);
    put_u32(image, HEAD_LIMIT, limit);
    put_u32(image, HEAD_BLOCKS, 0);
    put_u32(image, HEAD_TOTAL, head_size(signals as usize) as u32);
}

// Writes the kind of signal g's record.
pub fn put_kind(image: &mut [u8], g: usize, record: SignalRecord)
    requires { kind_place g + 4 ≤ length image.old }
    ensures { image.new ≡ kind_put g «record» image.old }
{
    put_u32(image, kind_place(g), kind_number(record.kind));
}
