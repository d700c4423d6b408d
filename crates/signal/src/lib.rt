// One signal: its kind, and what a change call says to it. Document 01, 'Stream of one signal' and 'Turned back' (4, 5, 6).
//
// Here stand the definitions, specs/Kind.antt, specs/Content.antt and specs/Answer.antt, which reads the answers' enums, with their laws, and the types. The
// code that decodes is in `signal_decode`.
#![tactic(auto)]

pub mod decode;
pub mod kind;

// A signal by its number.
#[derive(Clone, Copy, PartialEq, Eq, Debug)]
pub struct SignalRef(pub u32);
