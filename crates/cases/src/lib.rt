// The bench sheet of document 01: its starred cases in one table (specs/Starred.antt), proved by one fact about the definitions
// (proofs/StarredHold.antt). No code.
#![tactic(auto)]
