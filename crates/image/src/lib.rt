// The image: head, blocks, and where a signal's stream stands. Document 01, 'Block and image'.
//
// The bytes are defined in specs/Block.antt, specs/Head.antt and specs/Image.antt.
#![tactic(auto)]

pub mod kind;
pub mod layout;
pub mod limits;

// The place of a signal's class byte in a block's data, plus one; 0 says that the signal has no changes there.
#[derive(Clone, Copy)]
pub struct SignalDataOffset(pub u32);
