// The answers of the calls that crate interface exports, as numbers: what the recorder's calls answer (`outcome`) and what the calls on
// images do (`images`). The contracts cite specs/Recorded.antt and specs/Answered.antt.
#![tactic(auto)]

pub mod images;
pub mod outcome;
