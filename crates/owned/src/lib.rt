// A caller that owns its signals' records: an array of two, lent to each entry point of the recorder and taken back. Document 01,
// 'Recording' and 'Turned back' (1 to 8 and 10); document 02, (k) (18).
//
// The entry points take a lent slice of records; who has plain values only calls these functions. Each contract is the entry point's
// equation, with the array for the slice.
#![tactic(auto)]

ghost use Rattle.std.specs.Prelude.{◌≡◌, []};
ghost use Rattle.value.specs.Class.{class_number};
ghost use Rattle.signal.specs.Content.{vcd, raw, real};
ghost use Rattle.recording.specs.Memory.{memory, left};
ghost use Rattle.recording.specs.Step.{start_of, time_of, change_of, finish_of};

use encoder::{changes, finish, raw, start, time};
use recording::{Encoder, Outcome, Settings, SignalRecord, Stamp, Target};
use value::states::States;

// What a call answers, the state and the records after it.
#[derive(Clone, Copy)]
pub struct Kept {
    pub outcome: Outcome,
    pub records: [SignalRecord; 2],
}

// A start. The work buffer is not lent: [] stands for it.
pub fn start(
    state: Encoder,
    settings: Settings,
    kept: [SignalRecord; 2],
    times: &[u64],
    image: &mut [u8],
) -> Kept
    ensures { left result.outcome result.records times.now [] image.new
        ≡ start_of settings (memory state kept times.now [] image.old) }
{
    let mut records = kept;
    let outcome = start::start(state, settings, &mut records, times, image);
    Kept { outcome, records }
}

// A time.
pub fn time_change(
    state: Encoder,
    kept: [SignalRecord; 2],
    times: &mut [u64],
    work: &[u8],
    image: &mut [u8],
    stamp: Stamp,
) -> Kept
    ensures { left result.outcome result.records times.new work.now image.new
        ≡ time_of (memory state kept times.old work.now image.old) stamp.sender stamp.time }
{
    let mut records = kept;
    let outcome = time::time_change(state, &mut records, times, work, image, stamp);
    Kept { outcome, records }
}

// A VCD value of a signal.
pub fn vcd_value_change(
    state: Encoder,
    kept: [SignalRecord; 2],
    times: &[u64],
    work: &mut [u8],
    image: &[u8],
    target: Target,
    value: &[u8],
) -> Kept
    ensures { left result.outcome result.records times.now work.new image.now
        ≡ change_of (memory state kept times.now work.old image.now) target.sender target.signal.0 (vcd value.now) }
{
    let mut records = kept;
    let outcome = changes::vcd_value_change(state, &mut records, times, work, image, target, value);
    Kept { outcome, records }
}

// A raw value of a signal, by the class that it claims and its bytes.
pub fn raw_class_change(
    state: Encoder,
    kept: [SignalRecord; 2],
    times: &[u64],
    work: &mut [u8],
    image: &[u8],
    target: Target,
    claim: States,
    bytes: &[u8],
) -> Kept
    ensures { left result.outcome result.records times.now work.new image.now
        ≡ change_of (memory state kept times.now work.old image.now) target.sender target.signal.0 (raw (class_number claim) bytes.now) }
{
    let mut records = kept;
    let outcome = raw::raw_class_change(
        state,
        &mut records,
        times,
        work,
        image,
        target,
        claim,
        bytes,
    );
    Kept { outcome, records }
}

// A raw value of a signal, by its claim's number and its bytes.
pub fn raw_claim_change(
    state: Encoder,
    kept: [SignalRecord; 2],
    times: &[u64],
    work: &mut [u8],
    image: &[u8],
    target: Target,
    claim: u32,
    bytes: &[u8],
) -> Kept
    ensures { left result.outcome result.records times.now work.new image.now
        ≡ change_of (memory state kept times.now work.old image.now) target.sender target.signal.0 (raw claim bytes.now) }
{
    let mut records = kept;
    let outcome = changes::raw_claim_change(
        state,
        &mut records,
        times,
        work,
        image,
        target,
        claim,
        bytes,
    );
    Kept { outcome, records }
}

// A real of a signal, by the 64 bits of its f64.
pub fn real_change(
    state: Encoder,
    kept: [SignalRecord; 2],
    times: &[u64],
    work: &mut [u8],
    image: &[u8],
    target: Target,
    bits: u64,
) -> Kept
    ensures { left result.outcome result.records times.now work.new image.now
        ≡ change_of (memory state kept times.now work.old image.now) target.sender target.signal.0 (real bits) }
{
    let mut records = kept;
    let outcome = changes::real_change(state, &mut records, times, work, image, target, bits);
    Kept { outcome, records }
}

// A finish.
pub fn finish(
    state: Encoder,
    kept: [SignalRecord; 2],
    times: &mut [u64],
    work: &[u8],
    image: &mut [u8],
) -> Kept
    ensures { left result.outcome result.records times.new work.now image.new
        ≡ finish_of (memory state kept times.old work.now image.old) }
{
    let mut records = kept;
    let outcome = finish::finish(state, &mut records, times, work, image);
    Kept { outcome, records }
}
