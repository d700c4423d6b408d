// A plan, before and after the loop over the records.
ghost use Rattle.std.specs.Prelude.{◌≡◌, ℕ, ◌-◌, ◌<◌, length, set, Some};
ghost use Rattle.cut.specs.Cut.{CutOpens, CutCloses};
ghost use Rattle.plan.specs.Carry.{if_some, opened_by, closed_by, cut_times, times_by, Completes};

use cut::{close_cut, open_cut};
use plan_state::plan::Plan;
use recording::Outcome;

// Opens the block to cut, if any.
pub fn open_planned(plan: Plan, times: &[u64], work: &[u8], image: &mut [u8])
    requires { (size : ℕ) → plan.cut ≡ Some size → CutOpens plan.state size times.now work.now image.old }
    ensures { image.new ≡ opened_by plan times.now work.now image.old }
{
    if let Some(size) = plan.cut {
        open_cut(plan.state, size, times, work, image);
    }
}

// Closes the block to cut, if any; the next table begins with the old last time.
fn close_planned(plan: Plan, times: &mut [u64], work: &[u8], image: &mut [u8])
    requires { (size : ℕ) → plan.cut ≡ Some size → CutCloses plan.state size times.old work.now image.old }
    ensures { (times.new ≡ cut_times plan times.old) × (image.new ≡ closed_by plan work.now image.old) }
{
    if let Some(size) = plan.cut {
        close_cut(plan.state, size, times, work, image);
    }
}

// Stores a time that is taken, in the last place of the table.
fn store_time(plan: Plan, times: &mut [u64])
    requires { (time : ℕ) → plan.time ≡ Some time → (0 < plan.outcome.state.held) × (plan.outcome.state.held - 1 < length times.old) }
    ensures { times.new ≡ if_some plan.time (set times.old (plan.outcome.state.held - 1)) times.old }
{
    if let Some(time) = plan.time {
        times[plan.outcome.state.held as usize - 1] = time;
    }
}

// Completes a time or a finish after the loop over the records.
pub fn complete(plan: Plan, times: &mut [u64], work: &[u8], image: &mut [u8]) -> Outcome
    requires { Completes plan times.old work.now image.old }
    ensures { (result ≡ plan.outcome) × (times.new ≡ times_by plan times.old) × (image.new ≡ closed_by plan work.now image.old) }
{
    close_planned(plan, times, work, image);
    store_time(plan, times);
    plan.outcome
}
