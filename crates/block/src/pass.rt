// The passes over the part of the image in which a block is made. All places count from the part's start.
ghost use Rattle.std.specs.Prelude.{◌≡◌, ◌+◌, ◌*◌, ◌≤◌, ◌<◌, length, take, drop};
ghost use Rattle.std.proofs.lemmas.List.Edits.{sets};
ghost use Rattle.value.specs.Class.{class_number};
ghost use Rattle.image.specs.Block.{les, offset_place, times_place};
ghost use Rattle.recording.specs.Work.{items_in};
ghost use Rattle.block.specs.Passes.{kept_at, keep, clear, count, begun, next_part, scatter, end_of, settled, settle, Counts, Scatters, Settles};
ghost use Rattle.block.specs.Given.{Divides};

use copy::put_part;
use image::SignalDataOffset;
use image::layout::offset_place;
use numbers::little_endian::{get_u32, put_u32, put_u64};
use value::states::States;

// The number kept for signal g.
fn kept_for(tail: &[u8], g: usize) -> u32
    requires { offset_place g + 4 ≤ length tail.now }
    ensures { result ≡ kept_at g tail.now }
{
    get_u32(tail, offset_place(g))
}

fn keep_for(tail: &mut [u8], g: usize, v: u32)
    requires { offset_place g + 4 ≤ length tail.old }
    ensures { tail.new ≡ keep g v tail.old }
{
    put_u32(tail, offset_place(g), v);
}

// Writes the first held of the times from at on.
pub fn put_times(tail: &mut [u8], at: usize, times: &[u64], held: usize)
    requires { (held ≤ length times.now) × (at + 8 * held ≤ length tail.old) }
    ensures { tail.new ≡ sets tail.old at (les 8 (take held times.now)) }
{
    let mut p = at;
    for i in 0..held {
        p = put_u64(tail, p, times[i]);
    }
}

// Copies n bytes of src from a place on. Most records have one byte or two, for which a call that copies any number is dear.
fn copy_bytes(tail: &mut [u8], to: usize, src: &[u8], from: usize, n: usize)
    requires { (to + n ≤ length tail.old) × (from + n ≤ length src.now) }
    ensures { tail.new ≡ sets tail.old to (take n (drop from src.now)) }
{
    if n == 1 {
        tail[to] = src[from];
    } else if n == 2 {
        tail[to] = src[from];
        tail[to + 1] = src[from + 1];
    } else {
        put_part(tail, to, src, from, n);
    }
}

// 0 is kept for each signal.
pub fn clear_kept(tail: &mut [u8], signals: u32)
    requires { times_place signals ≤ length tail.old }
    ensures { tail.new ≡ clear 0 signals tail.old }
{
    for g in 0..signals as usize {
        keep_for(tail, g, 0);
    }
}

// Each signal's stream bytes are counted.
pub fn count_bytes(tail: &mut [u8], work: &[u8], signals: u32)
    requires { (times_place signals ≤ length tail.old) × Divides signals work.now × Counts (items_in signals work.now) tail.old }
    ensures { tail.new ≡ count (items_in signals work.now) tail.old }
{
    let mut p = 0;
    // A while: where the next record begins stands in this one.
    while p < work.len() {
        let g = get_u32(work, p) as usize;
        let n = get_u32(work, p + 4);
        p = p + 8 + n as usize;
        let before = kept_for(tail, g);
        keep_for(tail, g, before + n);
    }
}

// The part of signal g, if it has stream bytes, begins at place o of the data, which starts at byte d: the class byte is written, and
// the place after it is kept. Answers where the next part begins.
pub fn begin_part(tail: &mut [u8], d: usize, o: usize, g: usize, top: States) -> usize
    requires { (offset_place g + 4 ≤ d) × (d + next_part o g tail.old ≤ length tail.old) × (next_part o g tail.old < 4294967296) }
    ensures { (result ≡ next_part o g tail.old) × (tail.new ≡ begun d o g (class_number top) tail.old) }
{
    let n = kept_for(tail, g) as usize;
    if n == 0 {
        return o;
    }
    tail[d + o] = top.number();
    keep_for(tail, g, (o + 1) as u32);
    o + 1 + n
}

// Each record's bytes go to its signal's next place.
pub fn scatter_work(tail: &mut [u8], d: usize, work: &[u8], signals: u32)
    requires { (times_place signals ≤ d) × Divides signals work.now × Scatters d (items_in signals work.now) tail.old }
    ensures { tail.new ≡ scatter d (items_in signals work.now) tail.old }
{
    let mut p = 0;
    // A while, as in `count_bytes`. One walk for both, which takes a closure, is no plainer: the closure writes the part that it is lent, and
    // each walk has an invariant of its own.
    while p < work.len() {
        let g = get_u32(work, p) as usize;
        let n = get_u32(work, p + 4);
        let bytes = p + 8;
        p = bytes + n as usize;
        let to = kept_for(tail, g);
        copy_bytes(tail, d + to as usize, work, bytes, n as usize);
        keep_for(tail, g, to + n);
    }
}

fn kept_plus_one(place: u32) -> SignalDataOffset
    requires { place + 1 < 4294967296 }
    ensures { result.0 ≡ place + 1 }
{
    SignalDataOffset(place + 1)
}

// A part ends where the next one begins: the offset of signal g's part, if it has one, is the end o of the part before it, kept plus
// one. Answers the end of the last part.
fn settle_offset(tail: &mut [u8], o: u32, g: usize) -> u32
    requires { (offset_place g + 4 ≤ length tail.old) × (o + 1 < 4294967296) }
    ensures { (result ≡ end_of o g tail.old) × (tail.new ≡ settled o g tail.old) }
{
    let end = kept_for(tail, g);
    if end == 0 {
        return o;
    }
    let offset = kept_plus_one(o);
    keep_for(tail, g, offset.0);
    end
}

// Each signal's offset takes the place of the number kept for it.
pub fn settle_offsets(tail: &mut [u8], signals: u32)
    requires { (times_place signals ≤ length tail.old) × Settles 0 0 signals tail.old }
    ensures { tail.new ≡ settle 0 0 signals tail.old }
{
    let mut o: u32 = 0;
    for g in 0..signals as usize {
        o = settle_offset(tail, o, g);
    }
}
