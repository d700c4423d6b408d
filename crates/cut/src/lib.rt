// A cut: the open block is written into the image, and the next one begins. Document 01, 'Recording' and 'Block and image'.
//
// Its size is known before the first byte is written. All is linear in the work, the signals and the times. The loop over the signals'
// records is its caller's: it makes a turn of `begin_record` for each, after `open_cut` and before `close_cut` (specs/Turns.antt).
#![tactic(auto)]

ghost use Rattle.std.specs.Prelude.{◌≡◌, ◌+◌, ◌≤◌, ◌<◌, length, drop};
ghost use Rattle.recording.specs.Work.{items_in};
ghost use Rattle.recording.specs.Step.{with_cut};
ghost use Rattle.block.specs.Given.{Divides, closed, Closes};
ghost use Rattle.cut.specs.Cut.{sized, in_tail, data_start, cut_opened, cut_closed, next_times, CutOpens, CutCloses};
ghost use Rattle.cut.specs.Turns.{placed, turned, TurnFits};

use block::block::{close_block, open_block};
use block::pass::begin_part;
use image::layout::{HEAD_BLOCKS, HEAD_TOTAL, data_start};
use numbers::little_endian::put_u32;
use recording::{Encoder, SignalRecord};
use refusal::Refusal;
use work::measure;

// The state after a cut of a block of size bytes.
pub fn cut_state(state: Encoder, size: u32) -> Encoder
    requires { (state.image + size < 4294967296) × (state.blocks + 1 < 4294967296) }
    ensures { result ≡ with_cut state size }
{
    Encoder {
        held: 1,
        work: 0,
        image: state.image + size,
        blocks: state.blocks + 1,
        ..state
    }
}

// How many bytes the block takes. 10: the work does not divide into records of numbers below S. 8: the block exceeds the unused bytes of an
// image of so many; it is compared in 64 bits, as S and the work may have been altered.
pub fn cut_size(state: Encoder, work: &[u8], image: usize) -> Result<u32, Refusal>
    requires { (state.work ≤ length work.now) × (state.image ≤ image) × (image ≤ 1073741824) }
    ensures { result ≡ sized state work.now image }
{
    let Some(bytes) = measure(&work[..state.work as usize], state.signals) else {
        return Err(Refusal::Altered);
    };
    let fixed = data_start(state.signals as usize, state.held as usize) as u64;
    let free = (image - state.image as usize) as u64;
    if free < fixed || free - fixed < bytes {
        return Err(Refusal::ImageFull);
    }
    Ok((fixed + bytes) as u32)
}

// Opens the block of the used work, of size bytes, in the unused part of the image.
pub fn open_cut(state: Encoder, size: u32, times: &[u64], work: &[u8], image: &mut [u8])
    requires { CutOpens state size times.now work.now image.old }
    ensures { image.new ≡ cut_opened state size times.now work.now image.old }
{
    let used = state.image as usize;
    let records = &work[..state.work as usize];
    open_block(
        &mut image[used..],
        size,
        state.signals,
        times,
        state.held,
        records,
    );
}

// The turn of a signal's record: its part begins at place o of the data. Answers where the next part begins.
pub fn begin_record(
    image: &mut [u8],
    used: usize,
    d: usize,
    o: usize,
    g: usize,
    record: SignalRecord,
) -> usize
    requires { TurnFits used d o g image.old }
    ensures { placed result image.new ≡ turned used d g «record» (placed o image.old) }
{
    begin_part(&mut image[used..], d, o, g, record.top)
}

// Closes the block of some work in the unused part of the image.
fn close_tail(state: Encoder, work: &[u8], image: &mut [u8])
    requires state_in_bounds { (state.image + data_start state ≤ length image.old) × (length image.old ≤ 1073741824) × Divides state.signals work.now }
    requires closes { Closes (data_start state) state.signals (items_in state.signals work.now) (drop state.image image.old) }
    ensures { image.new ≡ in_tail state.image (closed (data_start state) state.signals (items_in state.signals work.now)) image.old }
{
    let used = state.image as usize;
    let d = data_start(state.signals as usize, state.held as usize);
    close_block(&mut image[used..], d, state.signals, work);
}

// Closes the block, then writes N and total into the image's head. The next table begins with the old last time.
pub fn close_cut(state: Encoder, size: u32, times: &mut [u64], work: &[u8], image: &mut [u8])
    requires { CutCloses state size times.old work.now image.old }
    ensures { (times.new ≡ next_times state times.old) × (image.new ≡ cut_closed state size work.now image.old) }
{
    close_tail(state, &work[..state.work as usize], image);
    put_u32(image, HEAD_BLOCKS, state.blocks + 1);
    put_u32(image, HEAD_TOTAL, state.image + size);
    times[0] = times[state.held as usize - 1];
}
