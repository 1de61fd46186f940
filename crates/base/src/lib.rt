// No code: list functions, orders and the laws that loops are proved by.
#![tactic(auto)]
