// The changes of a signal in one block: repeats dropped, the others counted, and written where outputs are. A block's changes make of the
// outputs what `all_taken` says (specs/Output.antt); proofs/OutputLaws holds it against `pushed` of the crate loaded.
#![tactic(auto)]

ghost use Rattle.std.specs.Prelude.{◌≡◌, suc, ◌+◌, ◌*◌, ◌≤◌, ◌<◌, ◌^◌, length, set, Some};
ghost use Rattle.std.proofs.lemmas.List.Edits.{sets};
ghost use Rattle.value.specs.Class.{class_number, class_of_all};
ghost use Rattle.signal.specs.Content.{symbols_of};
ghost use Rattle.loaded.specs.EntryBytes.{entry_bytes};
ghost use Rattle.loaded.specs.Opener.{kind_at};
ghost use Rattle.entry.specs.Read.{content_read, Reads};
ghost use Rattle.entry_same.specs.Kept.{KeptReads};
ghost use Rattle.walk.specs.Walk.{block_place};
ghost use Rattle.walk.specs.Open.{image_of};
ghost use Rattle.loader_block.specs.Output.{taken, Room, output_as};
ghost use Rattle.loader_block.specs.Blocks.{output_in, block_taken, BlockRoom};

use entry::length::entry_len;
use entry::read::PlacedChange;
use entry_put::put_entry;
use entry_same::kept::repeats_last;
use signal::kind::SignalEncoding;
use stream_known::known_change;
use value::states::States;
use walk::open::Block;
use walk_part::part_in;

// How many entries are kept, how many bytes they have, the last of them.
#[derive(Clone, Copy)]
pub struct Loading {
    pub count: u32,
    pub used: usize,
    pub last: Option<PlacedChange>,
}

impl Loading {
    ghost use Rattle.loader_block.specs.Output.{nothing_kept};

    // Before the first change: nothing is kept.
    pub fn nothing() -> Loading
        ensures { result ≡ nothing_kept }
    {
        Loading {
            count: 0,
            used: 0,
            last: None,
        }
    }

    // With one entry more, of which so many bytes are used then.
    fn one_more(self, used: usize, change: PlacedChange) -> Loading
        requires { self.count + 1 < 2 ^ 32 }
        ensures { (result.count ≡ self.count + 1) × (result.used ≡ used) × (result.last ≡ Some change) }
    {
        Loading {
            count: self.count + 1,
            used,
            last: Some(change),
        }
    }
}

// Stores the index and the bytes of an entry after those that are kept, and answers the place after its bytes.
fn write_entry(
    image: &[u8],
    kind: SignalEncoding,
    class: States,
    change: PlacedChange,
    i: u32,
    state: Loading,
    index: &mut [u32],
    bytes: &mut [u8],
) -> usize
    requires reads { Reads kind image.now change.value change.next × (class_of_all (symbols_of (content_read kind image.now change.value change.next)) ≤ class_number class) }
    requires count_in_bounds { (state.count < length index.old) × (state.used + length (entry_bytes kind (class_number class) (content_read kind image.now change.value change.next)) ≤ length bytes.old) }
    ensures { (result ≡ state.used + length (entry_bytes kind (class_number class) (content_read kind image.now change.value change.next))) × (index.new ≡ set index.old state.count i) × (bytes.new ≡ sets bytes.old state.used (entry_bytes kind (class_number class) (content_read kind image.now change.value change.next))) }
{
    let at = state.count as usize;
    let used = state.used;
    index[at] = i;
    put_entry(bytes, used, image, kind, class, change)
}

// One change, at the index i of the combined table. Where nothing is written its bytes are counted: every entry of a signal is as long.
fn take_change(
    image: &[u8],
    kind: SignalEncoding,
    class: States,
    write: bool,
    change: PlacedChange,
    i: u32,
    state: Loading,
    index: &mut [u32],
    bytes: &mut [u8],
) -> Loading
    requires kept_reads { KeptReads kind image.now state.last × Reads kind image.now change.value change.next × (class_of_all (symbols_of (content_read kind image.now change.value change.next)) ≤ class_number class) }
    requires count_bound { (state.count + 1 < 2 ^ 32) × (state.used + length (entry_bytes kind (class_number class) (content_read kind image.now change.value change.next)) < 2 ^ 64) × Room write (taken kind (class_number class) write (output_as kind image.now state index.old bytes.old) i (content_read kind image.now change.value change.next)) (length index.old) (length bytes.old) }
    ensures { KeptReads kind image.now result.last × (result.count ≤ state.count + 1) × (result.used ≤ state.used + length (entry_bytes kind (class_number class) (content_read kind image.now change.value change.next))) × (output_as kind image.now result index.new bytes.new ≡ taken kind (class_number class) write (output_as kind image.now state index.old bytes.old) i (content_read kind image.now change.value change.next)) }
{
    if repeats_last(image, kind, state.last, change) {
        return state;
    }
    if write {
        let used = write_entry(image, kind, class, change, i, state, index, bytes);
        return state.one_more(used, change);
    }
    state.one_more(state.used + entry_len(kind, class), change)
}

// The changes of a signal in a block, whose times begin at index `base` of the combined table.
// Not inlined: its loop would share the registers with the one over the blocks.
#[inline(never)]
pub fn load_block(
    block: Block,
    signal: u32,
    class: States,
    write: bool,
    base: u32,
    state: Loading,
    index: &mut [u32],
    bytes: &mut [u8],
) -> Loading
    requires placed { KeptReads (kind_at (image_of block.image) signal) block.image.bytes.now state.last × (base ≤ block.at) × (state.count ≤ block.at) × (state.used ≤ 4 * block.at) }
    requires block_room { BlockRoom block.image.bytes.now block.number signal base (class_number class) write (output_in block.image.bytes.now signal state index.old bytes.old) (length index.old) (length bytes.old) }
    ensures reads { KeptReads (kind_at (image_of block.entry.image) signal) block.entry.image.bytes.now result.last }
    ensures bounds { (result.count ≤ block_place (image_of block.entry.image) (suc block.entry.number)) × (result.used ≤ 4 * block_place (image_of block.entry.image) (suc block.entry.number)) }
    ensures taken { output_in block.entry.image.bytes.now signal result index.new bytes.new ≡ block_taken block.entry.image.bytes.now block.entry.number signal base (class_number class) write (output_in block.entry.image.bytes.now signal state index.old bytes.old) }
{
    let image = block.image.bytes;
    let kind = block.image.kind_at(signal);
    let part = part_in(block, signal);
    let to = part.to;
    let mut p = part.from;
    let mut i = base;
    let mut state = state;
    // each change says where the next one begins
    while p < to {
        match known_change(image, p, kind) {
            Some(read) => {
                let change = PlacedChange {
                    value: read.value,
                    next: read.next,
                };
                i += read.delta;
                p = read.next;
                state = take_change(image, kind, class, write, change, i, state, index, bytes);
            }
            // an accepted image has no such stream
            None => return state,
        }
    }
    state
}
