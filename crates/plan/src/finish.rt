// A finish.
ghost use Rattle.std.specs.Prelude.{◌≡◌, length};
ghost use Rattle.plan.specs.Plan.{or_refused, plan_finish};
ghost use Rattle.plan.specs.Carry.{opened_by};

use crate::carry::open_planned;
use crate::or_refused;
use cut::{cut_size, cut_state};
use plan_state::closed;
use plan_state::plan::{Plan, plan_cut, plan_still};
use recording::{Encoder, Lengths};
use refusal::Refusal;
use refusals::state_refusal;

// Cuts if any time is held, and closes. The answer is the total.
fn plan_finish(state: Encoder, lent: Lengths, work: &[u8]) -> Result<Plan, Refusal>
    ensures { or_refused state result ≡ plan_finish state lent.records lent.times work.now lent.image }
{
    state_refusal(state, false, lent, work.len())?;
    if state.held == 0 {
        return Ok(plan_still(closed(state), state));
    }
    let size = cut_size(state, work, lent.image)?;
    let after = closed(cut_state(state, size));
    Ok(plan_cut(after, state, size, lent.records))
}

// Decides a finish of a recording of n records, and opens the block to cut.
pub fn prepare_finish(
    state: Encoder,
    n: usize,
    times: &[u64],
    work: &[u8],
    image: &mut [u8],
) -> Plan
    ensures { (result ≡ plan_finish state n (length times.now) work.now (length image.old))
        × (image.new ≡ opened_by result times.now work.now image.old) }
{
    let lent = Lengths {
        records: n,
        times: times.len(),
        image: image.len(),
    };
    let plan = or_refused(plan_finish(state, lent, work), state);
    open_planned(plan, times, work, image);
    plan
}
