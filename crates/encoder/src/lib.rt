// The recorder over a lent slice of signal records. Document 01, 'Recording', 'Block and image' and 'Turned back' (1 to 8 and 10); document 02,
// (k) (18).
//
// Any caller may make any call in any state: no entry point has a `requires`. Each contract is one equation between answer, state,
// records and lent buffers at exit and a definition of recording/specs/Step.antt over those at entry. An entry point is a straight line
// of calls; what is decided stands in functions of values and plain slices.
#![tactic(auto)]

pub mod changes;
pub mod finish;
pub mod raw;
pub mod start;
pub mod time;
pub mod turns;
