// The search call: the record's questions, those of the buffer and the saved position, then the search.
ghost use Rattle.std.specs.Prelude.{◌≡◌, true, ◌≤◌, length, take, []};
ghost use Rattle.base.specs.Lists.{distinct};
ghost use Rattle.relation_links.specs.Compiled.{Compiled};
ghost use Rattle.model.specs.Calls.{search_position, search_saved, search_reply, search_call};
ghost use Rattle.model.specs.Accepted.{Accepted};
ghost use Rattle.record_decoded.specs.Decoded.{execution_of};
ghost use Rattle.search_call.specs.Calls.{reply_of};

use record_decoded::position::{saved_position, write_position};
use record_decoded::question::Question;
use record_decoded::types::{Execution, MOST_INSTRUCTIONS};
use record_reader::reader::read;
use relation_links::operations::{Operations, operations_of};
use relation_marks::between::all_marks;
use relation_places::place_all;
use search_admit::TABLE;
use search_enabled::affected_by;
use search_resume::steps::{Verdict, search_from};
use search_rows::table::put_rows;

// The verdict, the steps made, and the length of the position that is left at the front of the buffer.
#[derive(Clone, Copy, Debug, PartialEq, Eq)]
pub struct SearchReply {
    pub verdict: Verdict,
    pub steps: u32,
    pub length: usize,
}

// The search from a saved position of different operations: question 21, then the steps.
fn search_on(
    bytes: &[u8],
    x: Execution,
    t: Operations,
    marks: &[[u16; MOST_INSTRUCTIONS]; MOST_INSTRUCTIONS],
    buffer: &mut [u8],
    saved: usize,
    allowance: u32,
) -> Result<SearchReply, Question>
    requires accepted { Accepted (execution_of bytes.now x) × Compiled x t marks.now }
    requires saved { (saved ≤ t.count) × (t.count ≤ length buffer.old) × (distinct t.count [] (take saved buffer.old) ≡ true) }
    ensures { reply_of saved result buffer.new ≡ search_reply saved buffer.old (search_position (execution_of bytes.now x) (take saved buffer.old) allowance) }
{
    let n = t.count;
    let mut rows = [0u64; TABLE];
    put_rows(bytes, x, t, marks, &mut rows);
    let given = saved_position(buffer, saved);
    let affected = affected_by(n, &rows);
    let Some(outcome) = search_from(n, given, allowance, &rows, &affected) else {
        return Err(Question::SavedPosition);
    };
    write_position(buffer, outcome.position);
    Ok(SearchReply {
        verdict: outcome.verdict,
        steps: outcome.steps,
        length: outcome.position.length,
    })
}

// The search of an accepted execution: questions 18 to 21, then the steps.
fn search_execution(
    bytes: &[u8],
    x: Execution,
    buffer: &mut [u8],
    saved: usize,
    allowance: u32,
) -> Result<SearchReply, Question>
    requires { Accepted (execution_of bytes.now x) }
    ensures { reply_of saved result buffer.new ≡ search_reply saved buffer.old (search_saved (execution_of bytes.now x) buffer.old saved allowance) }
{
    let t = operations_of(x.instructions, x.processors);
    let n = t.count;
    if buffer.len() < n {
        return Err(Question::BufferLength);
    }
    if n < saved {
        return Err(Question::SavedLength);
    }
    if place_all(&buffer[..saved], n).is_none() {
        return Err(Question::SavedEntries);
    }
    let marks = all_marks(x);
    search_on(bytes, x, t, &marks, buffer, saved, allowance)
}

// Searches on from the position of the first `saved` entries of the buffer, with at most `allowance` steps.
pub fn search(
    bytes: &[u8],
    buffer: &mut [u8],
    saved: usize,
    allowance: u32,
) -> Result<SearchReply, Question>
    ensures { reply_of saved result buffer.new ≡ search_call bytes.now buffer.old saved allowance }
{
    let x = read(bytes)?;
    search_execution(bytes, x, buffer, saved, allowance)
}
