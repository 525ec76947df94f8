// No code: this crate holds definitions (specs/) and laws about them (proofs/).
#![tactic(auto)]
