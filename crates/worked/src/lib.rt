// The paper's worked examples and traps, checked by proof: they stand in specs/.
#![tactic(auto)]
