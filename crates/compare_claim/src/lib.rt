// The claims that equal records have the same mark: no code, their proofs alone.
#![tactic(auto)]
