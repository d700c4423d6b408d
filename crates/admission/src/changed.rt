// A change's answer, with the state and its signal's record after it.
ghost use Rattle.std.specs.Prelude.{◌≡◌, ◌+◌, ◌<◌, Ok, Err};
ghost use Rattle.value.specs.Class.{class_number};
ghost use Rattle.recording.specs.Step.{skipped_one};
ghost use Rattle.admission.specs.Stages.{working, risen};

use recording::{Answer, Encoder, SignalRecord};
use refusal::Refusal;
use value::states::States;

// What a change answers or why it is refused, with the state and the signal's record after it.
#[derive(Clone, Copy)]
pub struct Changed {
    pub answer: Result<Answer, Refusal>,
    pub state: Encoder,
    pub kept: SignalRecord,
}

// A refusal: nothing changes.
pub fn refused(refusal: Refusal, state: Encoder, kept: SignalRecord) -> Changed
    ensures { (result.answer ≡ Err refusal) × (result.state ≡ state) × (result.kept ≡ kept) }
{
    let answer = Err(refusal);
    Changed {
        answer,
        state,
        kept,
    }
}

// A change in a skip of its sender is counted, up to the top of the count.
pub fn skipped(state: Encoder, kept: SignalRecord, sender: u32) -> Changed
    ensures { (result.answer ≡ Ok Answer.Skipped) × (result.state ≡ skipped_one state sender) × (result.kept ≡ kept) }
{
    let skips = state.skips;
    let skip = skips.of(sender).counted();
    Changed {
        answer: Ok(Answer::Skipped),
        state: Encoder {
            skips: skips.with(sender, skip),
            ..state
        },
        kept,
    }
}

// The work buffer has n more bytes; the record has the last time's index, and its top class is at least the value's. Its probe stays.
pub fn recorded(state: Encoder, kept: SignalRecord, n: usize, states: States) -> Changed
    requires { (state.work + n < 18446744073709551616) × (0 < state.held) }
    ensures { (result.answer ≡ Ok Answer.Recorded) × (result.state ≡ working state n) × (result.kept ≡ risen state kept (class_number states)) }
{
    Changed {
        answer: Ok(Answer::Recorded),
        state: Encoder {
            work: state.work + n as u64,
            ..state
        },
        kept: SignalRecord {
            index: state.held - 1,
            top: States::join(kept.top, states),
            ..kept
        },
    }
}
