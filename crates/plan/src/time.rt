// A time.
ghost use Rattle.std.specs.Prelude.{◌≡◌, length};
ghost use Rattle.recording.specs.Calls.{above};
ghost use Rattle.recording.specs.Memory.{first};
ghost use Rattle.recording.specs.Refusals.{no_probe, state_tests};
ghost use Rattle.plan.specs.Plan.{or_refused, plan_by, plan_time};
ghost use Rattle.plan.specs.Carry.{opened_by};

use crate::carry::open_planned;
use crate::or_refused;
use cut::{cut_size, cut_state};
use plan_state::plan::{Plan, plan_cut, plan_still, plan_taken};
use plan_state::way::way_of;
use plan_state::{back, same, taken};
use recording::{Encoder, Lengths, Stamp, no_probe};
use refusal::Refusal;
use refusals::state_refusal;
use std::cmp::Ordering;

// A time that is above: a full table is cut first.
fn plan_above(state: Encoder, lent: Lengths, work: &[u8], stamp: Stamp) -> Result<Plan, Refusal>
    requires { first (state_tests state (no_probe stamp.sender) lent.records lent.times (length work.now) lent.image) ≡ 0 }
    ensures { or_refused state result ≡ plan_by state lent.records work.now lent.image stamp.sender stamp.time above }
{
    if state.held < state.limit {
        let plan = plan_still(taken(state, stamp.sender), state);
        return Ok(plan_taken(plan, stamp.time));
    }
    let size = cut_size(state, work, lent.image)?;
    let after = taken(cut_state(state, size), stamp.sender);
    let plan = plan_cut(after, state, size, lent.records);
    Ok(plan_taken(plan, stamp.time))
}

// A larger time than the last, whoever sent that, is taken, after a cut if the table is full; an equal one adds no time, and ends the skip of
// its sender in edition 2; a smaller one starts it.
fn plan_time(
    state: Encoder,
    lent: Lengths,
    times: &[u64],
    work: &[u8],
    stamp: Stamp,
) -> Result<Plan, Refusal>
    requires { lent.times ≡ length times.now }
    ensures { or_refused state result ≡ plan_time state lent.records times.now work.now lent.image stamp.sender stamp.time }
{
    state_refusal(state, no_probe(stamp.sender), lent, work.len())?;
    match way_of(times, state.held, stamp.time) {
        Ordering::Greater => plan_above(state, lent, work, stamp),
        Ordering::Equal => Ok(plan_still(same(state, stamp.sender), state)),
        Ordering::Less => Ok(plan_still(back(state, stamp.sender), state)),
    }
}

// Decides a time of a recording of n records, and opens the block to cut.
pub fn prepare_time(
    state: Encoder,
    n: usize,
    times: &[u64],
    work: &[u8],
    image: &mut [u8],
    stamp: Stamp,
) -> Plan
    ensures { (result ≡ plan_time state n times.now work.now (length image.old) stamp.sender stamp.time)
        × (image.new ≡ opened_by result times.now work.now image.old) }
{
    let lent = Lengths {
        records: n,
        times: times.len(),
        image: image.len(),
    };
    let plan = or_refused(plan_time(state, lent, times, work, stamp), state);
    open_planned(plan, times, work, image);
    plan
}
