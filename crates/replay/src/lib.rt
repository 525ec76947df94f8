// What the programs that replay the oracle's lists share. A program asks its crates at each stored argument. Here are
// the lists of a file, the records, as they are read (oracle/README.md), outcomes and the report; crate replay_tally compares and counts.
#![tactic(auto)]

pub mod function;
pub mod outcome;
pub mod record;
pub mod report;
pub mod section;
