// The search from a saved position: it is made again, and walked on from.
#![tactic(auto)]

pub mod replay;
pub mod steps;
