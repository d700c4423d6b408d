// The recorder without bytes (specs/Model.antt), between what the calls do to memory and what the history says: its finished blocks, joined,
// are the history, and their image loads as the history's kept changes. Definitions and proofs only; no code.
#![tactic(auto)]
