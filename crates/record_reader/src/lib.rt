// The reader: any bytes become a decoded execution, or the number of the first question that fails.
#![tactic(auto)]

pub mod reader;
