// The text of an accepted image, written line by line: `accepted` has the whole of it. Document 01, 'Bench sheet'. The contracts cite
// specs/Listing.antt. `entries` and `lines` serve other texts of an image too.
#![tactic(auto)]

pub mod accepted;
pub mod entries;
pub mod lines;
mod signals;
