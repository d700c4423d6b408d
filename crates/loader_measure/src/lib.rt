// What the blocks say of a signal without its changes: how many bytes its streams have, and with them how many entries at most, and
// its class. Document 01, 'Loaded signal'. The contracts cite specs/Least.antt and loaded/specs/Loading.antt.
#![tactic(auto)]

ghost use Rattle.std.specs.Prelude.{◌≡◌, ◌≤◌};
ghost use Rattle.image.specs.Head.{image_limit};
ghost use Rattle.loaded.specs.Opener.{kind_at};
ghost use Rattle.loaded.specs.Loading.{loads};
ghost use Rattle.walk.specs.Open.{image_of};
ghost use Rattle.loader_measure.specs.Least.{least_length, streams_length};

use packed_symbols::bytes_required;
use signal::kind::SignalEncoding;
use value::states::States;
use walk::open::{Block, OpenImage};
use walk_part::part_in;

// How many bytes a signal's streams have in all blocks, and its largest top class.
#[derive(Clone, Copy)]
pub struct Measured {
    pub bytes: usize,
    pub top: u8,
}

// Adds the blocks up.
pub fn measure_blocks(image: OpenImage, signal: u32) -> Measured
    ensures { (result.bytes ≡ streams_length (kind_at (image_of image.entry) signal) signal (image_of image.entry).blocks) × (result.top ≡ (loads signal (image_of image.entry).blocks).class) × (result.bytes ≤ image_limit) }
{
    let mut at = image.first_block();
    let mut bytes: usize = 0;
    let mut top: u8 = 0;
    for number in 0..image.block_count() {
        let block = Block { image, number, at };
        let part = part_in(block, signal);
        bytes += part.to - part.from;
        top = top.max(part.top);
        at = block.end();
    }
    Measured { bytes, top }
}

// The fewest stream bytes of a change of a kind. An absent signal has no change; 1 divides there too.
pub fn least_len(kind: SignalEncoding) -> usize
    ensures { result ≡ least_length kind }
{
    match kind {
        SignalEncoding::BitVector(width) => {
            if width < 2 {
                return 1;
            }
            1 + bytes_required(States::Two, width)
        }
        SignalEncoding::Real => 9,
        SignalEncoding::Absent => 1,
    }
}
