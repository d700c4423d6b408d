// Packed values, symbols of 1, 2 or 4 bits in bytes, and raw values, which come packed: document 01, 'Symbol and value', after
// wellen's signal/value.rs. The last symbol stands in the lowest bits of the last byte, and unused top bits are zero.
//
// Here stand the definitions, specs/Packed.antt and specs/Raw.antt, and their laws; that packing and unpacking are inverse is proved in
// proofs/PackedLaws.antt. The code is in `packed_symbols`, `packed_class` and `packed_raw`.
#![tactic(auto)]
