// No code: this crate holds facts about closed numbers (proofs/), each computed.
#![tactic(auto)]
