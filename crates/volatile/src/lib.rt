// No code: this crate reads the work memory as the abstract cache log's volatile state, in specs/.
#![tactic(auto)]
