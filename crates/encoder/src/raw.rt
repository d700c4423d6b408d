// A raw value of a signal. Document 01, 'Symbol and value'.
ghost use Rattle.std.specs.Prelude.{◌≡◌, map};
ghost use Rattle.value.specs.Class.{class_number};
ghost use Rattle.signal.specs.Kind.{width_of};
ghost use Rattle.signal.specs.Content.{raw};
ghost use Rattle.recording.specs.Memory.{memory, left};
ghost use Rattle.recording.specs.Step.{change_of};

use crate::changes::value_change;
use change_notation::raw_notation;
use recording::{Encoder, Outcome, SignalRecord, Target};
use records::find_record;
use storage::StoredRecord;
use value::states::States;

// The class that it claims, its signal's width, and the bytes that it borrows.
#[derive(Clone, Copy)]
pub struct RawValue<'b> {
    pub claim: States,
    pub width: u32,
    pub bytes: &'b [u8],
}

// A raw value of a signal. The width is not looked at: it is the signal's, which its record has.
pub fn raw_value_change<T: StoredRecord>(
    state: Encoder,
    records: &mut [T],
    times: &[u64],
    work: &mut [u8],
    image: &[u8],
    target: Target,
    value: RawValue<'_>,
) -> Outcome
    ensures { left result (map T.stands_for records.new) times.now work.new image.now
        ≡ change_of (memory state (map T.stands_for records.old) times.now work.old image.now) target.sender target.signal.0
        (raw (class_number value.entry.claim) value.entry.bytes.now) }
{
    let given = raw_notation(value.claim, value.bytes);
    value_change(state, records, times, work, image, target, given)
}

// The width of a signal, by its record.
fn width_of(kept: SignalRecord) -> u32
    ensures { result ≡ width_of kept.kind }
{
    let kind = kept.kind;
    kind.width()
}

// A raw value by the class that it claims and its bytes; its width is the signal's.
pub fn raw_class_change<T: StoredRecord>(
    state: Encoder,
    records: &mut [T],
    times: &[u64],
    work: &mut [u8],
    image: &[u8],
    target: Target,
    class: States,
    bytes: &[u8],
) -> Outcome
    ensures { left result (map T.stands_for records.new) times.now work.new image.now
        ≡ change_of (memory state (map T.stands_for records.old) times.now work.old image.now) target.sender target.signal.0 (raw (class_number class) bytes.now) }
{
    let kept = find_record(&*records, target.signal);
    let width = width_of(kept);
    let value = RawValue {
        claim: class,
        width,
        bytes,
    };
    raw_value_change(state, records, times, work, image, target, value)
}
