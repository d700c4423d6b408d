// The calls of the recorder, but for the loops over the signals' records. Document 01, 'Recording' and 'Turned back'.
//
// A time and a finish are decided (`time::prepare_time`, `finish::prepare_finish`), then a loop makes `turns` turns over the records, then
// the call is completed (`carry::complete`). A start is decided (`start::begin`), then a loop over the records follows. No function here
// sees the records, so that the loops can go over records stored in any way. What is answered and the state after a call are made in crate
// plan_state. proofs/CarryLaws.antt and proofs/BeginLaws.antt have that the steps together are what recording/specs/Step.antt says.
#![tactic(auto)]

pub mod carry;
pub mod finish;
pub mod start;
pub mod time;

ghost use Rattle.std.specs.Prelude.{◌≡◌};
ghost use Rattle.plan.specs.Plan.{or_refused};

use plan_state::plan::{Plan, plan_still};
use plan_state::refused;
use recording::{Encoder, Outcome};
use refusal::Refusal;

// What a start comes to: turns over the records follow.
#[derive(Clone, Copy)]
pub struct Begun {
    pub outcome: Outcome,
    pub turns: usize,
}

// What is decided; where it is refused, nothing changes.
fn or_refused(decided: Result<Plan, Refusal>, state: Encoder) -> Plan
    ensures { result ≡ or_refused state decided }
{
    match decided {
        Ok(plan) => plan,
        Err(refusal) => plan_still(refused(refusal, state), state),
    }
}
