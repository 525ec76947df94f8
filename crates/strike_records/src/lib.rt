// What the strike program reads and writes, as bytes: the header, a record, a line (document 01, "The strike program").
#![tactic(auto)]

pub mod line;
pub mod record;
