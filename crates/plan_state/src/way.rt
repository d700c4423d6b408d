// Where a time stands.
ghost use Rattle.std.specs.Prelude.{◌≡◌, ◌≤◌, length, take};
ghost use Rattle.recording.specs.Calls.{way_of};
ghost use Rattle.plan_state.specs.Way.{way_in};

use std::cmp::Ordering;

// A time against the last of the held ones. Without one every time is above.
pub fn way_of(times: &[u64], held: u32, time: u64) -> Ordering
    requires { held ≤ length times.now }
    ensures { way_in result ≡ way_of (take held times.now) time }
{
    if held == 0 {
        return Ordering::Greater;
    }
    let last = times[held as usize - 1];
    time.cmp(&last)
}
