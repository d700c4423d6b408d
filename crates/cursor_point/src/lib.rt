// The entry that the cursor points to: one pass over a signal's changes up to time t, repeats dropped as in loading, that counts the entries
// and holds the last. What the pass does is specs/Point.antt; that it finds the entry which `entry_at` of the crate loaded names is proved in
// proofs/PointLaws and proofs/LoadLaws.
#![tactic(auto)]

ghost use Rattle.std.specs.Prelude.{◌≡◌, ◌+◌, ◌≤◌, ◌<◌, ◌^◌};
ghost use Rattle.loaded.specs.Opener.{kind_at, part_at};
ghost use Rattle.loaded.specs.Loading.{entries_in};
ghost use Rattle.entry.specs.Read.{content_read, Reads};
ghost use Rattle.walk.specs.Open.{image_of, block_of};
ghost use Rattle.cursor_point.specs.Point.{unpointed, kept, all_passed, blocks_passed, point_as, PointReads};

use entry::read::PlacedChange;
use entry_same::kept::repeats_last;
use signal::kind::SignalEncoding;
use stream_known::known_change;
use walk::open::{Block, OpenImage};
use walk_part::part_in;

// How many entries are kept so far; the time of the last of them, and its change or the newest that repeats it.
#[derive(Clone, Copy)]
pub struct Pointing {
    pub count: u32,
    pub time: u64,
    pub last: Option<PlacedChange>,
}

// One change more. A repeat adds no entry; it is held all the same, as its content is that of the last, so that the loop has less to choose.
fn keep_change(
    image: &[u8],
    kind: SignalEncoding,
    change: PlacedChange,
    time: u64,
    state: Pointing,
) -> Pointing
    requires { PointReads kind image.now state × Reads kind image.now change.value change.next × (state.count + 1 < 2 ^ 32) }
    ensures { PointReads kind image.now result × (point_as kind image.now result ≡ kept (point_as kind image.now state) time (content_read kind image.now change.value change.next)) }
{
    let last = Some(change);
    if repeats_last(image, kind, state.last, change) {
        return Pointing { last, ..state };
    }
    Pointing {
        count: state.count + 1,
        time,
        last,
    }
}

// A signal's changes up to t in a block. Their times do not fall, so the first one after t ends the pass.
fn pass_block(block: Block, kind: SignalEncoding, signal: u32, t: u64, state: Pointing) -> Pointing
    requires { (kind ≡ kind_at (image_of block.image) signal) × PointReads kind block.image.bytes.now state × (state.count ≤ block.at) }
    ensures reads { PointReads kind block.entry.image.bytes.now result }
    ensures passed { point_as kind block.entry.image.bytes.now result ≡ all_passed (block_of block.entry).times t (point_as kind block.entry.image.bytes.now state) (entries_in (part_at (block_of block.entry) signal)) }
{
    let image = block.image.bytes;
    let part = part_in(block, signal);
    let to = part.to;
    let mut p = part.from;
    let mut i: u32 = 0;
    let mut held = state;
    // each change says where the next one begins
    while p < to {
        match known_change(image, p, kind) {
            Some(read) => {
                i += read.delta;
                let time = block.time(i);
                if t < time {
                    return held;
                }
                let change = PlacedChange {
                    value: read.value,
                    next: read.next,
                };
                held = keep_change(image, kind, change, time, held);
                p = read.next;
            }
            // an accepted image has no such stream
            None => return held,
        }
    }
    held
}

// All of a signal's changes up to t. The first block that begins after t ends the pass.
pub fn point_at(image: OpenImage, kind: SignalEncoding, signal: u32, t: u64) -> Pointing
    requires { kind ≡ kind_at (image_of image) signal }
    ensures { PointReads kind image.entry.bytes.now result × (point_as kind image.entry.bytes.now result ≡ blocks_passed t signal unpointed (image_of image.entry).blocks) }
{
    let mut held = Pointing {
        count: 0,
        time: 0,
        last: None,
    };
    let mut at = image.first_block();
    for k in 0..image.block_count() {
        let block = Block {
            image,
            number: k,
            at,
        };
        if t < block.time(0) {
            return held;
        }
        held = pass_block(block, kind, signal, t, held);
        at = block.end();
    }
    held
}
