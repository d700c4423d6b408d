// Text as bytes. The contracts cite specs/Ascii.antt and specs/Put.antt.
#![tactic(auto)]

pub mod write;
