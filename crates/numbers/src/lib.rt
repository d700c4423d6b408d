// Numbers in byte buffers: unsigned LEB128 in its shortest form (document 01, 'Stream of one signal'), and little-endian integers.
//
// Every contract is an equation with a definition of specs/Leb128.antt or specs/LittleEndian.antt. That reading
// and writing are inverse is proved in proofs/Leb128Trip.antt and proofs/LittleEndianLaws.antt.
#![tactic(auto)]

pub mod leb128;
pub mod little_endian;
