// The claims of renumbered records, their smallest forms and their order: no code, their proofs alone.
#![tactic(auto)]
