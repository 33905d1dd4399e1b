// Demand 3: every list of calls and every cut. The statement is specs/Statement.antt, the theorem proofs/Theorem.antt.
#![tactic(auto)]
