// The types of what forward and inverse work out on a set, with nothing written, and of place's answer. The work, in
// `projection`, and the calls are crate calls.
#![tactic(auto)]

pub mod place;
pub mod work;
