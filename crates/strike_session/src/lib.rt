// The strike program on slices: a session that takes its input in whatever pieces it arrives (document 01, "The strike
// program"), how it begins, is fed and ends; and its input, read step by step.
#![tactic(auto)]

mod answers;
mod buffer;
pub mod feed;
pub mod input;
mod reads;
pub mod session;
pub mod step;
