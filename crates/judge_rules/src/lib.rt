// The lowest rule that a prefix breaks, from the places of its operations.
#![tactic(auto)]

pub mod linked;
pub mod lowest;
pub mod pairwise;
pub mod prefix;
