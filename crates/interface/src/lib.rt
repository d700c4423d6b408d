// What C and Rust link: the entry points on numbers and slices. include/wejumo.h declares them and says what a caller owes.
//
// No enum and no bool crosses. A slice crosses as a pointer and a length, a struct of numbers by value. Each function only turns numbers
// into what the inner call takes, makes it, and turns the answer into numbers; its contract is the inner one's equation through the
// readings of crates interface_state and interface_answers.
#![tactic(auto)]

pub mod bytes;
pub mod opened;
pub mod recorder;
pub mod sum;
