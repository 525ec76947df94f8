// What holds after every list of calls on a set stands in specs/ and proofs/: this crate has no code.
#![tactic(auto)]
