// That the test of one operation more on rows is the consistency of the longer prefix: a theorem, no code.
#![tactic(auto)]
