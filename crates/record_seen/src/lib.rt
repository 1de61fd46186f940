// The claims of the solvers' copy: no code, their proofs alone.
#![tactic(auto)]
