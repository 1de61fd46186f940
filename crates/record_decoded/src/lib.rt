// The decoded execution: kinds, roles, attributes, numbers, questions, the arrays that hold an execution, the attribute and the initial bytes of memory, and positions.
#![tactic(auto)]

pub mod initial;
pub mod kind;
pub mod memory;
pub mod number;
pub mod position;
pub mod question;
pub mod types;
