// What a time or a finish comes to, before the loop over the records.
ghost use Rattle.std.specs.Prelude.{◌≡◌};
ghost use Rattle.plan_state.specs.Outcomes.{still, cutting, taking};

use image::layout::data_start;
use recording::{Encoder, Outcome};

// All that the loop and the last step need to know.
#[derive(Clone, Copy)]
pub struct Plan {
    pub outcome: Outcome,
    // The state before the call.
    pub state: Encoder,
    // How many bytes the block has that is cut, if one is.
    pub cut: Option<u32>,
    // The turns over the records: all of them, or none where nothing is cut.
    pub turns: usize,
    // Used bytes of the image, and where the data of the block begin, from its first byte on.
    pub used: usize,
    pub start: usize,
    // The time that is taken, if one is.
    pub time: Option<u64>,
}

// Nothing is cut, and no time is taken.
pub fn plan_still(outcome: Outcome, state: Encoder) -> Plan
    ensures { result ≡ still outcome state }
{
    Plan {
        outcome,
        state,
        cut: None,
        turns: 0,
        used: 0,
        start: 0,
        time: None,
    }
}

// A block is cut, of so many bytes, in a loop over so many records.
pub fn plan_cut(outcome: Outcome, state: Encoder, size: u32, records: usize) -> Plan
    ensures { result ≡ cutting outcome state size records }
{
    Plan {
        outcome,
        state,
        cut: Some(size),
        turns: records,
        used: state.image as usize,
        start: data_start(state.signals as usize, state.held as usize),
        time: None,
    }
}

// The time is to be stored.
pub fn plan_taken(plan: Plan, time: u64) -> Plan
    ensures { result ≡ taking plan time }
{
    Plan {
        time: Some(time),
        ..plan
    }
}
