// How values are written as bytes and read back: forms, ways to build them, and their two laws. Definitions (specs/Form.antt) and proofs
// (proofs/FormLaws.antt, proofs/WholeLaws.antt) only; no code.
#![tactic(auto)]
