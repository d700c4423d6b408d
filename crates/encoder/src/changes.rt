// The change calls: a value in any notation, and a VCD, a raw and a real value.
ghost use Rattle.std.specs.Prelude.{◌≡◌, map};
ghost use Rattle.signal.specs.Content.{vcd, raw, real};
ghost use Rattle.recording.specs.Memory.{memory, left};
ghost use Rattle.recording.specs.Step.{change_of};

use change_notation::{GivenValue, RawBytes, RealBits, VcdBytes};
use recording::{Encoder, Lengths, Outcome, Target};
use records::{find_record, put_record};
use storage::StoredRecord;

// A change in any notation: the signal's record is read, decided on, and stored.
pub fn value_change<T: StoredRecord, V: GivenValue>(
    state: Encoder,
    records: &mut [T],
    times: &[u64],
    work: &mut [u8],
    image: &[u8],
    target: Target,
    value: V,
) -> Outcome
    ensures { left result (map T.stands_for records.new) times.now work.new image.now
        ≡ change_of (memory state (map T.stands_for records.old) times.now work.old image.now) target.sender target.signal.0 (V.given value) }
{
    let lent = Lengths {
        records: records.len(),
        times: times.len(),
        image: image.len(),
    };
    let kept = find_record(&*records, target.signal);
    let changed = change::value_change(state, kept, lent, target, value, work);
    put_record(records, target.signal, changed.kept);
    Outcome {
        answer: changed.answer,
        state: changed.state,
    }
}

// A VCD value of a signal.
pub fn vcd_value_change<T: StoredRecord>(
    state: Encoder,
    records: &mut [T],
    times: &[u64],
    work: &mut [u8],
    image: &[u8],
    target: Target,
    value: &[u8],
) -> Outcome
    ensures { left result (map T.stands_for records.new) times.now work.new image.now
        ≡ change_of (memory state (map T.stands_for records.old) times.now work.old image.now) target.sender target.signal.0 (vcd value.now) }
{
    let given = VcdBytes(value);
    value_change(state, records, times, work, image, target, given)
}

// A raw value of a signal, by the number of the class that it claims.
pub fn raw_claim_change<T: StoredRecord>(
    state: Encoder,
    records: &mut [T],
    times: &[u64],
    work: &mut [u8],
    image: &[u8],
    target: Target,
    claim: u32,
    value: &[u8],
) -> Outcome
    ensures { left result (map T.stands_for records.new) times.now work.new image.now
        ≡ change_of (memory state (map T.stands_for records.old) times.now work.old image.now) target.sender target.signal.0 (raw claim value.now) }
{
    let given = RawBytes {
        claim,
        bytes: value,
    };
    value_change(state, records, times, work, image, target, given)
}

// A real of a signal, by the 64 bits of its f64, so that every pattern is kept.
pub fn real_change<T: StoredRecord>(
    state: Encoder,
    records: &mut [T],
    times: &[u64],
    work: &mut [u8],
    image: &[u8],
    target: Target,
    bits: u64,
) -> Outcome
    ensures { left result (map T.stands_for records.new) times.now work.new image.now
        ≡ change_of (memory state (map T.stands_for records.old) times.now work.old image.now) target.sender target.signal.0 (real bits) }
{
    let given = RealBits(bits);
    value_change(state, records, times, work, image, target, given)
}
