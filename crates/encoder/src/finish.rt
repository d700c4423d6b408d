// A finish.
ghost use Rattle.std.specs.Prelude.{◌≡◌, map};
ghost use Rattle.recording.specs.Memory.{memory, left};
ghost use Rattle.recording.specs.Step.{finish_of};

use crate::turns::cut_records;
use plan::carry::complete;
use plan::finish::prepare_finish;
use recording::{Encoder, Outcome};
use storage::StoredRecord;

// Cuts if any time is held, and closes. The answer is the total: the image is the first so many bytes of the image buffer.
pub fn finish<T: StoredRecord>(
    state: Encoder,
    records: &mut [T],
    times: &mut [u64],
    work: &[u8],
    image: &mut [u8],
) -> Outcome
    ensures { left result (map T.stands_for records.new) times.new work.now image.new
        ≡ finish_of (memory state (map T.stands_for records.old) times.old work.now image.old) }
{
    let n = records.len();
    let plan = prepare_finish(state, n, &*times, work, image);
    cut_records(records, plan.turns, plan.used, plan.start, image);
    complete(plan, times, work, image)
}
