// No code: the board's words as the abstract cache log reads them, in specs/.
#![tactic(auto)]
