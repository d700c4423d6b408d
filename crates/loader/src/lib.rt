// Loading one signal of an accepted image: document 01, 'Loaded signal', after wellen's load_signal.
//
// Blocks in order, one output for all, so repeats are dropped across blocks too. How long the signal's streams are bounds its entries
// (crate `loader_measure`), so outputs with room for that many are written in one pass over the changes. Others are counted first: the
// same loops count and write (crate `loader_block`), so that 9 is decided before the first byte is written.
#![tactic(auto)]

pub mod every_block;
pub mod load;
