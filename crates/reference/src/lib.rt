// No code: this crate is the uncached machine that demand 3 compares with, in specs/.
#![tactic(auto)]
