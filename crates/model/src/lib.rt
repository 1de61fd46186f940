// No code: document 01 as definitions, its examples computed from them, and their laws.
#![tactic(auto)]
