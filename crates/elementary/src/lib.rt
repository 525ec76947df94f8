// Document 01's elementary steps: the definitions of all but the square root, which is crate arithmetic's, and what holds of them;
// floor and round, the series, the remainder, a number's sign, digits and places. Square root, sine and arc tangent as functions are crates of their own.
#![tactic(auto)]

pub mod alternating;
pub mod parts;
pub mod remainder;
pub mod signs;
pub mod sine;
pub mod whole;
