// Records with processors numbered anew have one mark: a theorem, no code.
#![tactic(auto)]
