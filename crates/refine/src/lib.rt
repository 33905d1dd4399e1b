// The steps of the calls, on words, keep the invariant of the abstract cache log at every cut: all of it stands in specs/.
#![tactic(auto)]
