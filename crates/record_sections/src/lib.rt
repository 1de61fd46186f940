// The claims of the separate sections: no code, their proofs alone.
#![tactic(auto)]
