// A record's own tests, 5 to 12 of document 01 in its order: `records` has 5 to 7 and `sheet_fields` 8 to 11, each in their order,
// and 12 is here. And what is held of the records that passed them: their places, the types' hashes and the counts. It reads no
// field but to compare (12), and declares nothing.
#![tactic(auto)]

pub mod hash;
pub mod holding;
mod repeats;
