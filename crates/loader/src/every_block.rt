// The blocks of an accepted image, in order.
ghost use Rattle.std.specs.Prelude.{◌≡◌, ◌≤◌, length};
ghost use Rattle.value.specs.Class.{class_number};
ghost use Rattle.loaded.specs.Loading.{loads};
ghost use Rattle.walk.specs.Open.{image_of};
ghost use Rattle.loader_block.specs.Output.{Room};
ghost use Rattle.loader_block.specs.Blocks.{output_in, all_loaded};

use loader_block::{Loading, load_block};
use value::states::States;
use walk::open::{Block, OpenImage};
use walk_table::shared;

// A signal's changes of all blocks, repeats dropped across them.
// Inlined: `load_block`, which isn't, has a large frame, and the stack holds one frame less.
#[inline(always)]
pub fn load_blocks(
    image: OpenImage,
    signal: u32,
    class: States,
    write: bool,
    index: &mut [u32],
    bytes: &mut [u8],
) -> Loading
    requires { ((loads signal (image_of image).blocks).class ≤ class_number class) × Room write (all_loaded image.bytes.now signal (class_number class) write index.old bytes.old) (length index.old) (length bytes.old) }
    ensures { output_in image.entry.bytes.now signal result index.new bytes.new ≡ all_loaded image.entry.bytes.now signal (class_number class) write index.old bytes.old }
{
    let mut at = image.first_block();
    let mut times: u32 = 0;
    let mut end = None;
    let mut state = Loading::nothing();
    for number in 0..image.block_count() {
        let block = Block { image, number, at };
        let base = times - shared(block, end);
        state = load_block(block, signal, class, write, base, state, index, bytes);
        times = base + block.time_count();
        end = Some(block.last_time());
        at = block.end();
    }
    state
}
