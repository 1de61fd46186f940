// The chain table: a mark for every two operations between which one or more links lead.
#![tactic(auto)]

ghost use Rattle.std.specs.Prelude.{◌≡◌, List, ℕ};
ghost use Rattle.model.specs.Calls.{table_marks, table_reply, table_call};
ghost use Rattle.model.specs.Accepted.{Accepted};
ghost use Rattle.record_decoded.specs.Decoded.{execution_of};
ghost use Rattle.relation_chain_table.specs.Replies.{reply_of};

use crate::closure::closed;
use crate::rows::write_rows;
use crate::square::links_square;
use record_decoded::question::Question;
use record_decoded::types::Execution;
use record_reader::reader::read;
use relation_links::operations::operations_of;
use relation_marks::between::all_marks;

pub mod closure;
pub mod rows;
pub mod square;

// Question 22, then the table: the links, closed to chains, then written out. No link depends on the initial bytes: the contract holds
// whatever they are.
fn write_chains(x: Execution, table: &mut [u8]) -> Result<(), Question>
    requires { (bytes : List ℕ) → Accepted (execution_of bytes x) }
    ensures { (bytes : List ℕ) → reply_of result table.new ≡ table_reply table.old (table_marks (execution_of bytes x) table.old) }
{
    let is = x.instructions;
    let t = operations_of(is, x.processors);
    let n = t.count;
    if table.len() < n * n {
        return Err(Question::TableLength);
    }
    let marks = all_marks(x);
    let links = links_square(is, t, &marks);
    let chains = closed(links, n);
    write_rows(table, &chains, n);
    Ok(())
}

// Writes the N rows of N marks at the front of the table.
pub fn chain_table(bytes: &[u8], table: &mut [u8]) -> Result<(), Question>
    ensures { reply_of result table.new ≡ table_call bytes.now table.old }
{
    let x = read(bytes)?;
    write_chains(x, table)
}
