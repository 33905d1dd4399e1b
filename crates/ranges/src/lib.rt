// No code: this crate is what an undo entry says of a line, apart from the word that packs it, in specs/.
#![tactic(auto)]
