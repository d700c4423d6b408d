// What the calls answer that read an image: document 01, 'Loaded signal'.
//
// What each call does is defined in specs/Reader.antt, over specs/Opener.antt, specs/Loading.antt and specs/EntryBytes.antt. A refused call
// answers the refusal in place of these; the combined table's answer is its length alone.
#![tactic(auto)]

use value::real::Entry;
use value::states::States;

// A loaded signal: the number of its kept entries, and its class.
#[derive(Clone, Copy)]
pub struct Loaded {
    pub count: u32,
    pub class: States,
}

// The entry that the cursor found: its number, its time and its value; a vector's symbols stand in the lent buffer.
#[derive(Clone, Copy)]
pub struct Found {
    pub number: u32,
    pub time: u64,
    pub entry: Entry,
}
