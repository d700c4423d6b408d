// What is decided about a change on numbers and on one record by value: the tests before its value is looked at; the head of its record in
// the work buffer (`item`); answer, state and record after it (`changed`). Document 01, 'Recording' and 'Turned back'; document 02, (k).
//
// The contracts cite specs/Stages.antt and the tables of recording/specs/Refusals.antt. Crate change puts these together with the value's decoding and its bytes.
#![tactic(auto)]

ghost use Rattle.std.specs.Prelude.{◌≡◌};
ghost use Rattle.recording.specs.Memory.{first};
ghost use Rattle.recording.specs.Refusals.{signal_tests};
ghost use Rattle.refusal.specs.Refusal.{refused_number};
ghost use Rattle.admission.specs.Stages.{numbered, admission_of};

use recording::{Encoder, Lengths, SignalRecord, Target, no_probe};
use refusal::Refusal;
use refusals::state_refusal;

pub mod changed;
pub mod item;

// Whether the value of a change that is not refused is looked at.
#[derive(Clone, Copy, PartialEq, Eq)]
pub enum Admission {
    Skipped,
    Taken,
}

// 4, by the number or an absent kind; 18, where the record does not name the sender.
fn signal_refusal(state: Encoder, kept: SignalRecord, target: Target) -> Result<(), Refusal>
    ensures { refused_number result ≡ first (signal_tests state kept target.sender target.signal.0) }
{
    if state.signals <= target.signal.0 {
        return Err(Refusal::NoSignal);
    }
    if kept.kind.is_absent() {
        return Err(Refusal::NoSignal);
    }
    if u32::from(kept.probe) != target.sender {
        return Err(Refusal::Foreign);
    }
    Ok(())
}

// 2, 18 of the sender, 10 (first group), 3, the sender's skip, 4, 18 of the record, in this order.
pub fn admitted(
    state: Encoder,
    kept: SignalRecord,
    lent: Lengths,
    work: usize,
    target: Target,
) -> Result<Admission, Refusal>
    ensures { numbered result ≡ admission_of state kept lent.records lent.times work lent.image target.sender target.signal.0 }
{
    let foreign = no_probe(target.sender);
    state_refusal(state, foreign, lent, work)?;
    if state.held == 0 {
        return Err(Refusal::BeforeTime);
    }
    if state.skips.of(target.sender).on {
        return Ok(Admission::Skipped);
    }
    signal_refusal(state, kept, target)?;
    Ok(Admission::Taken)
}
