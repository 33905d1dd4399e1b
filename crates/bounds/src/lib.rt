// How many board stores a call can owe: the definitions stand in specs/, the laws in proofs/.
#![tactic(auto)]
