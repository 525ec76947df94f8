// The square root, and its digits. Each public function of `root` is total and has no requires.
#![tactic(auto)]

pub mod root;
mod root_digits;
