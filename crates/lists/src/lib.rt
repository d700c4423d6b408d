// Choices and lists: the small definitions and laws that every other crate's definitions and proofs share.
// No code: the definitions are in specs/, the laws in proofs/.
#![tactic(auto)]
