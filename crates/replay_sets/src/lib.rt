// What the programs that replay calls on a set share: the set with notes of what it should hold, the records that write
// both, the comparison of the two, and the tables that calls take.
#![tactic(auto)]

pub mod asked;
pub mod noted;
mod numbers;
pub mod places;
pub mod run;
pub mod tables;
