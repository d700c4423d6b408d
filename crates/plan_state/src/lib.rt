// What each call of crate plan answers and makes of the state, decided on values; what a time or a finish comes to (`plan`), and where a time
// stands (`way`). Document 01, 'Recording'. The contracts cite specs/Outcomes.antt.
#![tactic(auto)]

pub mod plan;
pub mod way;

ghost use Rattle.std.specs.Prelude.{◌≡◌, ◌+◌, ◌≤◌, ◌<◌, Ok, Err};
ghost use Rattle.recording.specs.State.{start_state};
ghost use Rattle.recording.specs.Step.{same_time, skipping, timed_state};
ghost use Rattle.plan_state.specs.Outcomes.{outcome, closing};

use recording::{Answer, Encoder, Outcome, Settings};
use refusal::Refusal;

// A refused call changes nothing.
pub fn refused(refusal: Refusal, state: Encoder) -> Outcome
    ensures { result ≡ outcome (Err refusal) state }
{
    Outcome {
        answer: Err(refusal),
        state,
    }
}

// The state of a recording without times and blocks: of the image its head is used.
pub fn begun(settings: Settings) -> Outcome
    requires { settings.signals ≤ 65536 }
    ensures { result ≡ outcome (Ok Answer.Started) (start_state settings) }
{
    let state = Encoder::started(settings);
    Outcome {
        answer: Ok(Answer::Started),
        state,
    }
}

// An equal time adds no time, and ends the skip of its sender in edition 2.
pub fn same(state: Encoder, sender: u32) -> Outcome
    ensures { result ≡ outcome (Ok Answer.Same) (same_time state sender) }
{
    let skips = state.skips;
    let skip = skips.of(sender).after_same(state.edition);
    Outcome {
        answer: Ok(Answer::Same),
        state: Encoder {
            skips: skips.with(sender, skip),
            ..state
        },
    }
}

// A smaller time starts the skip of its sender.
pub fn back(state: Encoder, sender: u32) -> Outcome
    ensures { result ≡ outcome (Ok Answer.Back) (skipping state sender) }
{
    let skips = state.skips;
    let skip = skips.of(sender).begun();
    Outcome {
        answer: Ok(Answer::Back),
        state: Encoder {
            skips: skips.with(sender, skip),
            ..state
        },
    }
}

// A taken time joins the table and ends the skip of its sender.
pub fn taken(state: Encoder, sender: u32) -> Outcome
    requires { state.held + 1 < 4294967296 }
    ensures { result ≡ outcome (Ok Answer.Taken) (timed_state state sender) }
{
    let skips = state.skips;
    let skip = skips.of(sender).ended();
    Outcome {
        answer: Ok(Answer::Taken),
        state: Encoder {
            held: state.held + 1,
            skips: skips.with(sender, skip),
            ..state
        },
    }
}

// The total bytes; no call is taken any more.
pub fn closed(state: Encoder) -> Outcome
    ensures { result ≡ closing state }
{
    Outcome {
        answer: Ok(Answer::Finished(state.image)),
        state: Encoder {
            closed: true,
            ..state
        },
    }
}
