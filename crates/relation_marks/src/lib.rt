// What two instructions are to each other, as marks packed into one number.
#![tactic(auto)]

pub mod between;
pub mod memory;
pub mod table;
