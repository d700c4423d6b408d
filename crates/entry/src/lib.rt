// One entry of a loaded signal: document 01, 'Loaded signal', after wellen's load functions.
//
// How long it is (length.rt), and the parts of the change that it is made of (read.rt). A change's content is that of specs/Read.antt, the
// bytes are those of the crate loaded (specs/EntryBytes.antt). On these stand `entry_put`, `entry_same` and `entry_answer`.
#![tactic(auto)]

pub mod length;
pub mod read;
