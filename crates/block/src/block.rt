// A block, written into the part of the image that follows the blocks before it.
ghost use Rattle.std.specs.Prelude.{◌≡◌, ◌++◌, ◌≤◌, length, take};
ghost use Rattle.std.proofs.lemmas.List.Edits.{sets};
ghost use Rattle.numbers.specs.LittleEndian.{le};
ghost use Rattle.image.specs.Block.{times_place, front_size};
ghost use Rattle.recording.specs.Work.{items_in};
ghost use Rattle.block.specs.Given.{Divides, opened, closed, Opens, Closes};

use crate::pass::{clear_kept, count_bytes, put_times, scatter_work, settle_offsets};
use image::layout::{BLOCK_SIGNALS, BLOCK_SIZE, BLOCK_TIMES, times_place};
use numbers::little_endian::put_u32;

// The first three numbers: how many bytes the block has, how many times, how many signals.
fn put_head(tail: &mut [u8], size: u32, held: u32, signals: u32)
    requires { 12 ≤ length tail.old }
    ensures { tail.new ≡ sets tail.old 0 (le 4 size ++ (le 4 held ++ le 4 signals)) }
{
    put_u32(tail, BLOCK_SIZE, size);
    put_u32(tail, BLOCK_TIMES, held);
    put_u32(tail, BLOCK_SIGNALS, signals);
}

// Opens the block of some work, of size bytes: writes the head and the first held of the times, and counts each signal's stream bytes.
pub fn open_block(tail: &mut [u8], size: u32, signals: u32, times: &[u64], held: u32, work: &[u8])
    requires held_in_bounds { (front_size signals held ≤ length tail.old) × (held ≤ length times.now) × Divides signals work.now }
    requires opens { Opens size held signals (take held times.now) (items_in signals work.now) tail.old }
    ensures { tail.new ≡ opened size held signals (take held times.now) (items_in signals work.now) tail.old }
{
    put_head(tail, size, held, signals);
    put_times(tail, times_place(signals as usize), times, held as usize);
    clear_kept(tail, signals);
    count_bytes(tail, work, signals);
}

// Closes the block in which the parts of all signals have begun; the data start at byte d. The records' bytes go to their places, and the
// offsets are set.
pub fn close_block(tail: &mut [u8], d: usize, signals: u32, work: &[u8])
    requires signals_bound { (times_place signals ≤ d) × (d ≤ length tail.old) × Divides signals work.now }
    requires closes { Closes d signals (items_in signals work.now) tail.old }
    ensures { tail.new ≡ closed d signals (items_in signals work.now) tail.old }
{
    scatter_work(tail, d, work, signals);
    settle_offsets(tail, signals);
}
