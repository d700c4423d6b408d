// The recorder's calls. Signal records cross as they are stored, one number of 64 bits each (crate storage).
ghost use Rattle.std.specs.Prelude.{◌≡◌, []};
ghost use Rattle.signal.specs.Content.{vcd, raw, real};
ghost use Rattle.recording.specs.Memory.{memory};
ghost use Rattle.recording.specs.State.{settings_of};
ghost use Rattle.recording.specs.Step.{start_of, time_of, change_of, finish_of};
ghost use Rattle.storage.specs.Storage.{records_of};
ghost use Rattle.interface_state.specs.State.{state_from};
ghost use Rattle.interface_answers.specs.Recorded.{told, told_of};

use encoder::changes::{raw_claim_change, real_change, vcd_value_change};
use encoder::finish::finish;
use encoder::start::start;
use encoder::time::time_change;
use interface_answers::outcome::{OutcomeNumbers, outcome_numbers};
use interface_state::StateNumbers;
use recording::{Encoder, Settings, Stamp, Target};
use signal::SignalRef;

// Starts a recording; no work buffer is lent.
#[unsafe(no_mangle)]
pub extern "C" fn wejumo_start(
    state: StateNumbers,
    limit: u32,
    signals: u32,
    edition: u32,
    records: &mut [u64],
    times: &[u64],
    image: &mut [u8],
) -> OutcomeNumbers
    ensures { told result (records_of records.new) times.now [] image.new
        ≡ told_of state (start_of (settings_of limit signals edition) (memory (state_from state) (records_of records.old) times.now [] image.old)) }
{
    let settings = Settings {
        limit,
        signals,
        edition,
    };
    let done = start(Encoder::from(state), settings, records, times, image);
    outcome_numbers(state, done)
}

// A time from a probe.
#[unsafe(no_mangle)]
pub extern "C" fn wejumo_time_change(
    state: StateNumbers,
    records: &mut [u64],
    times: &mut [u64],
    work: &[u8],
    image: &mut [u8],
    sender: u32,
    time: u64,
) -> OutcomeNumbers
    ensures { told result (records_of records.new) times.new work.now image.new
        ≡ told_of state (time_of (memory (state_from state) (records_of records.old) times.old work.now image.old) sender time) }
{
    let stamp = Stamp { sender, time };
    let done = time_change(Encoder::from(state), records, times, work, image, stamp);
    outcome_numbers(state, done)
}

// A VCD value of a signal, from a probe.
#[unsafe(no_mangle)]
pub extern "C" fn wejumo_vcd_value_change(
    state: StateNumbers,
    records: &mut [u64],
    times: &[u64],
    work: &mut [u8],
    image: &[u8],
    sender: u32,
    signal: u32,
    value: &[u8],
) -> OutcomeNumbers
    ensures { told result (records_of records.new) times.now work.new image.now
        ≡ told_of state (change_of (memory (state_from state) (records_of records.old) times.now work.old image.now) sender signal (vcd value.now)) }
{
    let target = Target {
        sender,
        signal: SignalRef(signal),
    };
    let done = vcd_value_change(
        Encoder::from(state),
        records,
        times,
        work,
        image,
        target,
        value,
    );
    outcome_numbers(state, done)
}

// A raw value of a signal, with the class that it claims, from a probe.
#[unsafe(no_mangle)]
pub extern "C" fn wejumo_raw_value_change(
    state: StateNumbers,
    records: &mut [u64],
    times: &[u64],
    work: &mut [u8],
    image: &[u8],
    sender: u32,
    signal: u32,
    claim: u32,
    value: &[u8],
) -> OutcomeNumbers
    ensures { told result (records_of records.new) times.now work.new image.now
        ≡ told_of state (change_of (memory (state_from state) (records_of records.old) times.now work.old image.now) sender signal
        (raw claim value.now)) }
{
    let target = Target {
        sender,
        signal: SignalRef(signal),
    };
    let done = raw_claim_change(
        Encoder::from(state),
        records,
        times,
        work,
        image,
        target,
        claim,
        value,
    );
    outcome_numbers(state, done)
}

// A real of a signal, by the 64 bits of its f64, from a probe.
#[unsafe(no_mangle)]
pub extern "C" fn wejumo_real_change(
    state: StateNumbers,
    records: &mut [u64],
    times: &[u64],
    work: &mut [u8],
    image: &[u8],
    sender: u32,
    signal: u32,
    bits: u64,
) -> OutcomeNumbers
    ensures { told result (records_of records.new) times.now work.new image.now
        ≡ told_of state (change_of (memory (state_from state) (records_of records.old) times.now work.old image.now) sender signal (real bits)) }
{
    let target = Target {
        sender,
        signal: SignalRef(signal),
    };
    let done = real_change(
        Encoder::from(state),
        records,
        times,
        work,
        image,
        target,
        bits,
    );
    outcome_numbers(state, done)
}

// Cuts if any time is held, and closes; answers the total bytes.
#[unsafe(no_mangle)]
pub extern "C" fn wejumo_finish(
    state: StateNumbers,
    records: &mut [u64],
    times: &mut [u64],
    work: &[u8],
    image: &mut [u8],
) -> OutcomeNumbers
    ensures { told result (records_of records.new) times.new work.now image.new
        ≡ told_of state (finish_of (memory (state_from state) (records_of records.old) times.old work.now image.old)) }
{
    let done = finish(Encoder::from(state), records, times, work, image);
    outcome_numbers(state, done)
}
