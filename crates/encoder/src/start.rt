// The start of a recording. Document 01, 'Recording' and 'Turned back' (1).
ghost use Rattle.std.specs.Prelude.{◌≡◌, map, []};
ghost use Rattle.recording.specs.Memory.{memory, left};
ghost use Rattle.recording.specs.Step.{start_of};

use crate::turns::start_records;
use plan::start::begin;
use recording::{Encoder, Outcome, Settings};
use records::has_bad_record;
use storage::StoredRecord;

// Starts a recording of S signals with at most B times a block, by an edition of the skip rule: writes the image's head, and sets each record's
// index and class to 0; its kind and probe stay.
// The work buffer is not lent: [] stands for it.
pub fn start<T: StoredRecord>(
    state: Encoder,
    settings: Settings,
    records: &mut [T],
    times: &[u64],
    image: &mut [u8],
) -> Outcome
    ensures { left result (map T.stands_for records.new) times.now [] image.new
        ≡ start_of settings (memory state (map T.stands_for records.old) times.now [] image.old) }
{
    let bad = has_bad_record(&*records);
    let n = records.len();
    let t = times.len();
    let begun = begin(state, settings, bad, n, t, image);
    start_records(records, begun.turns, image);
    begun.outcome
}
