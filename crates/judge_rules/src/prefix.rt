// A prefix of an execution's operations, as the rules are asked of it.
use record_decoded::position::Position;
use record_decoded::types::{Execution, MOST_INSTRUCTIONS};
use relation_links::operations::Operations;

// The record and the execution that it holds, with its operations and the marks of every two instructions; the places of the prefix. Bounds stand in the methods'
// contracts and in no ghost field: `links_broken` and `pairs_broken` each ask for fewer than the other, and may not ask more than they did.
#[derive(Clone, Copy)]
pub struct Prefix<'a> {
    pub bytes: &'a [u8],
    pub execution: &'a Execution,
    pub operations: &'a Operations,
    pub marks: &'a [[u16; MOST_INSTRUCTIONS]; MOST_INSTRUCTIONS],
    pub places: &'a [u8; Position::LIMIT],
}
