// What is compiled of an execution, made once for each call.
#![tactic(auto)]

pub mod line;
pub mod row;
pub mod table;
pub mod words;
