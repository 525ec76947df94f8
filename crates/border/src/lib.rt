// What the C functions share: the statement of one (specs/), what is told of an answer and written of it, arguments, and the numbers of a table
// that is lent with a length.
#![tactic(auto)]

pub mod answers;
pub mod arguments;
pub mod rows;
