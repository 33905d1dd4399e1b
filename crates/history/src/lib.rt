// No code: this crate is the abstract cache log and its crash invariant, in specs/; its laws stand in proofs/.
#![tactic(auto)]
