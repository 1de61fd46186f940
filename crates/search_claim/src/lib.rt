// The claims of the search: no code, their proofs alone.
#![tactic(auto)]
