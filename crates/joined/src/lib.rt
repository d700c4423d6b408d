// Joining two images: what is answered, and what is made of them, specs/Join.antt; of three, in either grouping, specs/Groupings.antt.
// Definitions and proofs only; no code.
#![tactic(auto)]
