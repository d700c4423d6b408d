// A change, as far as it concerns the state, its signal's record and the work buffer. Document 01, 'Recording' and 'Turned back';
// document 02, (k).
//
// All is decided on one record by value, so that it does not matter how records are stored. The contracts cite specs/Found.antt, which
// is `change_of` of crate recording for one record; crate admission says what is answered on the way.
//
// Each notation has its own path from the tests to the bytes, so that each call compiles into one function.
#![tactic(auto)]

ghost use Rattle.std.specs.Prelude.{◌≡◌, ◌≤◌, ◌<◌, length};
ghost use Rattle.signal.specs.Content.{decode};
ghost use Rattle.recording.specs.Calls.{reply_of};
ghost use Rattle.change.specs.Found.{found, found_by, found_of, found_after};

use admission::changed::{Changed, recorded, refused, skipped};
use admission::item::begin_item;
use admission::{Admission, admitted};
use change_notation::GivenValue;
use recording::{Encoder, Lengths, SignalRecord, Target};
use refusal::Refusal;
use signal::SignalRef;

// A change that is neither skipped nor refused before its value is looked at: it is written into the work buffer, unless 4, 5, 6, 10 (second
// group) or 7 refuses it.
fn record<V: GivenValue>(
    state: Encoder,
    kept: SignalRecord,
    signal: SignalRef,
    value: V,
    work: &mut [u8],
) -> Result<Changed, Refusal>
    requires { (0 < state.held) × (state.held ≤ 65535) × (state.work ≤ length work.old) }
    ensures { found_after state kept result work.new ≡ found_by state kept work.old signal.0 (decode kept.kind (V.given value)) }
{
    let decoded = value.decode_to(kept.kind)?;
    let n = begin_item(state, kept, signal, decoded.change, work)?;
    let gap = state.held - 1 - kept.index;
    value.put_change(
        work,
        state.work as usize + 8,
        kept.kind,
        gap,
        decoded.change,
    );
    Ok(recorded(state, kept, 8 + n, decoded.states))
}

// A change, or why it is refused: 2, 18 of the sender, 10 (first group), 3, the sender's skip, 4, 18 of the record, 5, 6, 10 (second group),
// 7, in this order.
fn judged<V: GivenValue>(
    state: Encoder,
    kept: SignalRecord,
    lent: Lengths,
    target: Target,
    value: V,
    work: &mut [u8],
) -> Result<Changed, Refusal>
    ensures { found_after state kept result work.new ≡ found_of state kept lent.records lent.times lent.image work.old target.sender target.signal.0 (V.given value) }
{
    match admitted(state, kept, lent, work.len(), target)? {
        Admission::Skipped => Ok(skipped(state, kept, target.sender)),
        Admission::Taken => record(state, kept, target.signal, value, work),
    }
}

// A change of a signal whose record is kept, in any notation. A refused one changes nothing.
pub fn value_change<V: GivenValue>(
    state: Encoder,
    kept: SignalRecord,
    lent: Lengths,
    target: Target,
    value: V,
    work: &mut [u8],
) -> Changed
    ensures { found (reply_of result.answer) result.state result.kept work.new ≡ found_of state kept lent.records lent.times lent.image work.old target.sender target.signal.0 (V.given value) }
{
    match judged(state, kept, lent, target, value, work) {
        Ok(changed) => changed,
        Err(refusal) => refused(refusal, state, kept),
    }
}
