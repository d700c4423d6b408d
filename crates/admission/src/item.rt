// The head of a change's record in the work buffer.
ghost use Rattle.std.specs.Prelude.{◌≡◌, ◌≤◌, ◌<◌, length};
ghost use Rattle.admission.specs.Stages.{numbered, item_start_of, item_begun};

use numbers::little_endian::put_u32;
use recording::{Encoder, SignalRecord};
use refusal::Refusal;
use signal::SignalRef;
use signal::decode::ChangeValue;
use signal::kind::MAX_WIDTH;
use stream_length::change_len;

// 10 (second group) and 7; else writes the signal and the stream length, which is the answer. change is decoding's answer for the value.
pub fn begin_item(
    state: Encoder,
    kept: SignalRecord,
    signal: SignalRef,
    change: ChangeValue,
    work: &mut [u8],
) -> Result<usize, Refusal>
    requires { (0 < state.held) × (state.held ≤ 65535) × (state.work ≤ length work.old) }
    ensures { (numbered result ≡ item_start_of state kept (length work.old) change)
        × (work.new ≡ item_begun work.old state.work signal.0 (numbered result)) }
{
    let last = state.held - 1;
    if last < kept.index {
        return Err(Refusal::Altered);
    }
    let width = kept.kind.width();
    if MAX_WIDTH < width {
        return Err(Refusal::Altered);
    }
    let n = change_len(width, last - kept.index, change);
    let used = state.work as usize;
    if work.len() - used < 8 + n {
        return Err(Refusal::WorkFull);
    }
    let next = put_u32(work, used, signal.0);
    put_u32(work, next, n as u32);
    Ok(n)
}
