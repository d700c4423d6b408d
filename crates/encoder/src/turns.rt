// The loops over the records: one at a start, one at a cut.
ghost use Rattle.std.specs.Prelude.{◌≡◌, map};
ghost use Rattle.recording.specs.Step as step;
ghost use Rattle.head.specs.Kinds.{kinds_put, KindsFit};
ghost use Rattle.cut.specs.Turns.{first_by, cut_turns, TurnsFit};

use cut::begin_record;
use head::put_kind;
use recording::{fresh, rewound};
use storage::StoredRecord;

// The first turns records of a start: each one's kind is written into the image's head, and its index and class are 0.
pub fn start_records<T: StoredRecord>(records: &mut [T], turns: usize, image: &mut [u8])
    requires { KindsFit turns (map T.stands_for records.old) image.old }
    ensures { (map T.stands_for records.new ≡ first_by step.fresh turns (map T.stands_for records.old))
        × (image.new ≡ kinds_put turns (map T.stands_for records.old) image.old) }
{
    for g in 0..turns {
        let kept = records[g].load();
        put_kind(image, g, kept);
        records[g] = T::store(fresh(kept));
    }
}

// The first turns records of a cut: each one's part begins in the block, whose data start at byte start after the used bytes of the image,
// and its index is 0 again.
pub fn cut_records<T: StoredRecord>(
    records: &mut [T],
    turns: usize,
    used: usize,
    start: usize,
    image: &mut [u8],
)
    requires { TurnsFit used start turns (map T.stands_for records.old) image.old }
    ensures { (map T.stands_for records.new ≡ first_by step.rewound turns (map T.stands_for records.old))
        × (image.new ≡ (cut_turns used start turns (map T.stands_for records.old) image.old).image) }
{
    let mut o: usize = 0;
    for g in 0..turns {
        let kept = records[g].load();
        o = begin_record(image, used, start, o, g, kept);
        records[g] = T::store(rewound(kept));
    }
}
