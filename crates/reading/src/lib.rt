// The stream of a signal and the times of a block, read by the tests of crate codec, specs/Walk.antt.
#![tactic(auto)]

pub mod changes;
pub mod times;
