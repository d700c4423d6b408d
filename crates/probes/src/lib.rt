// Two probes on one recording (document 02, (k)): what probe 0 says does not reach probe 1. The claim (specs/Probes.antt), its proof (proofs/Apart),
// and computed cases: a pair that it speaks of, why it leaves out what it leaves out, and a recorder that it shuts out (proofs/Cases). No code.
#![tactic(auto)]
