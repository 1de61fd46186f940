// The smallest renumbered form of a record: its processors sorted by their keys, untouched lines as zero.
#![tactic(auto)]

pub mod form;
pub mod lex;
pub mod processors;
pub mod sort;
