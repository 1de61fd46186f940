// The search: the first legal order, in calls of any allowance, from a saved position.
#![tactic(auto)]

pub mod call;
