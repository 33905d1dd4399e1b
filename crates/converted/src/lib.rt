// What is claimed of a conversion beyond its contract. The statement is specs/Statement.antt, the theorem
// specs/Theorem.antt.
#![tactic(auto)]
