// What a call that is lent positions comes to, with the arrays of which they are the first, for the programs that replay such calls.
#![tactic(auto)]

pub mod lists;
pub mod regions;
