// A time.
ghost use Rattle.std.specs.Prelude.{◌≡◌, map};
ghost use Rattle.recording.specs.Memory.{memory, left};
ghost use Rattle.recording.specs.Step.{time_of};

use crate::turns::cut_records;
use plan::carry::complete;
use plan::time::prepare_time;
use recording::{Encoder, Outcome, Stamp};
use storage::StoredRecord;

// A time: a larger one than the last, whoever sent that, is taken, after a cut if the table is full; an equal one adds no time, and ends the
// skip of its sender in edition 2; a smaller one starts it.
pub fn time_change<T: StoredRecord>(
    state: Encoder,
    records: &mut [T],
    times: &mut [u64],
    work: &[u8],
    image: &mut [u8],
    stamp: Stamp,
) -> Outcome
    ensures { left result (map T.stands_for records.new) times.new work.now image.new
        ≡ time_of (memory state (map T.stands_for records.old) times.old work.now image.old) stamp.sender stamp.time }
{
    let n = records.len();
    let plan = prepare_time(state, n, &*times, work, image, stamp);
    cut_records(records, plan.turns, plan.used, plan.start, image);
    complete(plan, times, work, image)
}
