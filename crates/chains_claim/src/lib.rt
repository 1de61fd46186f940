// The claim about what the chain table says of the orders: no code, its proof alone.
#![tactic(auto)]
