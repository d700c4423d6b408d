// Symbols, their classes, and what a value is to a signal: document 01, 'Symbol and value', after wellen's signal/value.rs.
//
// The contracts cite specs/Symbol.antt (which byte is which symbol), specs/Class.antt (classes and bits) and specs/Real.antt (a real's
// bits and its f64; `Entry` is how 'Loaded signal' answers one); specs/Change.antt reads `BitVecChange`. No function has a `requires`.
#![tactic(auto)]

pub mod change;
pub mod letter;
pub mod real;
pub mod states;
pub mod symbol;
