// No code: this crate holds what Paper 11 claims of every list of host writes and steps (specs/) and its proof (proofs/).
#![tactic(auto)]
