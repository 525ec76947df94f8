// A region on one face (document 02, Paper 4): its types, with the definitions and what holds of them. An outline's
// positions are all placed on one face, or none is. `Seen` takes its positions in here; crate list_calls has the other functions.
#![tactic(auto)]

pub mod region;
pub mod seen;
