// The links of rules 1 to 8, 13 and 15: 'a before b' required without an 'if', as a relation of two operations.
#![tactic(auto)]

pub mod link;
pub mod operations;
