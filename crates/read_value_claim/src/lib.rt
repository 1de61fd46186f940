// The claim of the read-value test: no code, its proof alone.
#![tactic(auto)]
