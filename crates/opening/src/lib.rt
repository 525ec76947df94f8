// No code: this crate holds what Paper 9 claims (specs/) and its proofs (proofs/).
#![tactic(auto)]
