// The block writer. Document 01, 'Block and image'.
//
// A block is written into the part of the image that follows the blocks before it, in passes over that part, the work and the signals'
// records: its cost is linear in the work, the signals and the times. The pass over the records, in which each signal's part begins, is
// its caller's, one `pass::begin_part` for each; `block::open_block` goes before it and `block::close_block` after it. What each pass does
// is defined in specs/Passes.antt; proofs/BlockLaws.antt has that together they leave the bytes that `block_bytes` (image, specs/Block.antt)
// says.
#![tactic(auto)]

pub mod block;
pub mod pass;
