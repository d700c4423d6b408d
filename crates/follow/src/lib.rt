// Between the recorder's bytes (crate recording) and the recorder without bytes (crate model): every call of a recording does to memory what
// the model does to its blocks, or is refused; and every valid image of one block, or of none, is left by some list of calls. Definitions and proofs only; no code.
#![tactic(auto)]
