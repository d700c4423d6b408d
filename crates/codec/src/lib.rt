// What bytes mean as an image: document 01, 'Block and image' (the opener), with document 02's joins. Definitions (specs/Parse.antt: parse) and
// the proof that bytes and valid images are one to one (proofs/Trip.antt) only; no code.
#![tactic(auto)]
