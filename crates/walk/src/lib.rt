// Walking an accepted image: its signals, its blocks and their times. Document 01, 'Block and image' and 'Loaded signal'. On these stand
// `walk_part`, the stream of a signal in a block, and `walk_table`, the combined table.
//
// That the opener accepts the bytes is said by their type, `OpenImage`; an entry point tests it once. The image that the bytes are is `image_in`
// (specs/Walk.antt), and what is read of it is what the definitions of `loaded` say. Laws are in proofs/.
#![tactic(auto)]

pub mod block;
pub mod head;
pub mod open;
