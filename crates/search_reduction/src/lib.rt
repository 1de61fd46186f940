// What one operation more can newly break: definitions and a theorem, no code.
#![tactic(auto)]
