// Demand 3 of document 00, as one claim about lists of calls and joins of what they leave (specs/Demand3.antt), its proof (proofs/Demand3, proofs/PowerLoss), and computed
// cases of it. No code.
#![tactic(auto)]
