// VCD values of vectors: document 01, 'Symbol and value', after the end of wellen's vcd.rs. IEEE 1364 has the letters 0 1 x z and the left
// extension by them; the further letters and the lenient prefixes are wellen's, and that u, w and - extend is document 02's, (h).
//
// Here stand the definitions, specs/Vcd.antt, with their laws (for callers in proofs/VcdLaws.antt) and worked values (proofs/Cases.antt). The code is in
// `vcd_text` and `vcd_decode`, and that of the left extension in `packer_letters`.
#![tactic(auto)]
