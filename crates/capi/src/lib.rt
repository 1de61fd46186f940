// The calls open to C and Rust: each answer as a number. A slice passes as a pointer, then its length.
#![tactic(auto)]

ghost use Rattle.std.specs.Prelude.{◌≡◌, ◌+◌, List, ℕ};
ghost use Rattle.model.specs.Calls.{says, read_all, judge_call, table_call, search_call};
ghost use Rattle.model.specs.Sections.{sections_from, write_call};
ghost use Rattle.model.specs.SolversCopy.{solvers_copy_call};
ghost use Rattle.model.specs.Renumbering.{compare_call, stands_first};
ghost use Rattle.record_decoded.specs.Refusals.{question_number};
ghost use Rattle.record_writer.specs.Replies.{reply_of};
ghost use Rattle.search_resume.specs.Replies.{verdict_meant};
ghost use Rattle.capi.specs.Numbers.{call_number, check_number, judge_number, done_number, search_number, compare_number, handed_number, Searched, Recorded};

use record_compare::HandedBack;
use record_decoded::question::Question;
use search_resume::steps::Verdict;
use std::cmp::Ordering;

// The number of a call that a question refuses.
fn refusal(q: Question) -> u32
    ensures { result ≡ 256 + question_number q }
{
    256 + u32::from(q.number())
}

// 0 for a call that is done.
fn done_or_refusal(done: Result<(), Question>) -> u32
    ensures { result ≡ call_number done }
{
    match done {
        Ok(()) => 0,
        Err(q) => refusal(q),
    }
}

// Whether a record passes questions 1 to 15, 26 and 27: 0, or 256 + the first question that fails.
#[unsafe(no_mangle)]
pub extern "C" fn oglindesh_check(bytes: &[u8]) -> u32
    ensures { result ≡ check_number (read_all bytes.now) }
{
    let reading = record_reader::reader::read(bytes);
    done_or_refusal(reading.map(|_| ()))
}

// Whether an order is legal: 0, or the lowest rule that it breaks; 256 + the first question that fails.
#[unsafe(no_mangle)]
pub extern "C" fn oglindesh_judge(bytes: &[u8], order: &[u8]) -> u32
    ensures { result ≡ judge_number (judge_call bytes.now order.now) }
{
    let judgement = judge_call::judge(bytes, order);
    judgement.map_or_else(refusal, |lowest| lowest.map_or(0, u32::from))
}

// Writes the chain table: 0, or 256 + the first question that fails.
#[unsafe(no_mangle)]
pub extern "C" fn oglindesh_chains(bytes: &[u8], table: &mut [u8]) -> u32
    ensures { (result ≡ done_number (table_call bytes.now table.old).answer) × (table.new ≡ (table_call bytes.now table.old).table) }
{
    done_or_refusal(relation_chain_table::chain_table(bytes, table))
}

// The answer as a number, the steps made, and the length of the position that is left at the front of the buffer.
#[repr(C)]
#[derive(Clone, Copy)]
pub struct SearchReply {
    pub answer: u32,
    pub steps: u32,
    pub length: usize,
}

// The number of a verdict.
fn verdict_number(verdict: Verdict) -> u32
    ensures { result ≡ search_number (says (verdict_meant verdict)) }
{
    match verdict {
        Verdict::Unfinished => 0,
        Verdict::Allowed => 1,
        Verdict::Forbidden => 2,
    }
}

// Searches on from the position of the first `saved` entries of the buffer. The answer is 0 unfinished, 1 allowed, 2 forbidden; 256 + the first question
// that fails.
#[unsafe(no_mangle)]
pub extern "C" fn oglindesh_search(
    bytes: &[u8],
    buffer: &mut [u8],
    saved: usize,
    allowance: u32,
) -> SearchReply
    ensures { Searched (search_call bytes.now buffer.old saved allowance) result buffer.new }
{
    match search_call::call::search(bytes, buffer, saved, allowance) {
        Ok(reply) => SearchReply {
            answer: verdict_number(reply.verdict),
            steps: reply.steps,
            length: reply.length,
        },
        Err(q) => SearchReply {
            answer: refusal(q),
            steps: 0,
            length: saved,
        },
    }
}

// The answer as a number, and the length of the record that is written at the front of the buffer.
#[repr(C)]
#[derive(Clone, Copy)]
pub struct RecordReply {
    pub answer: u32,
    pub length: usize,
}

// The reply of a call that writes a record, as numbers.
fn reply_of(written: Result<usize, Question>) -> RecordReply
    ensures { (buffer : List ℕ) → Recorded (reply_of written buffer) result buffer }
{
    match written {
        Ok(length) => RecordReply { answer: 0, length },
        Err(q) => RecordReply {
            answer: refusal(q),
            length: 0,
        },
    }
}

// Writes the record of separate sections. The answer is 0, or 256 + the first question that fails; then the length is 0.
#[unsafe(no_mangle)]
pub extern "C" fn oglindesh_write(
    processors: u8,
    lines: &[u8],
    instructions: &[u8],
    pairs: &[u8],
    buffer: &mut [u8],
) -> RecordReply
    ensures { Recorded (write_call (sections_from processors lines.now instructions.now pairs.now) buffer.old) result buffer.new }
{
    let written = record_writer::write(processors, lines, instructions, pairs, buffer);
    reply_of(written)
}

// Writes the solvers' copy of a record, with zeros in place of all that was seen. The answer is 0, or 256 + the first question that fails; then the length is 0.
#[unsafe(no_mangle)]
pub extern "C" fn oglindesh_solvers_copy(bytes: &[u8], buffer: &mut [u8]) -> RecordReply
    ensures { Recorded (solvers_copy_call bytes.now buffer.old) result buffer.new }
{
    let written = record_solvers_copy::solvers_copy(bytes, buffer);
    reply_of(written)
}

// Compares two records: 0 equal, 1 the left one stands first, 2 the right one; 256 + the first question that fails, of the left one, else of the right one.
#[unsafe(no_mangle)]
pub extern "C" fn oglindesh_compare(left: &[u8], right: &[u8]) -> u32
    ensures { result ≡ compare_number (compare_call left.now right.now) }
{
    match record_compare::compare(left, right) {
        Ok(Ordering::Equal) => 0,
        Ok(Ordering::Less) => 1,
        Ok(Ordering::Greater) => 2,
        Err(q) => refusal(q),
    }
}

// Which of two records is handed back: 1 the left one, 2 the right one; 0 the empty part of the left one, where either is refused.
#[unsafe(no_mangle)]
pub extern "C" fn oglindesh_first(left: &[u8], right: &[u8]) -> u32
    ensures { result ≡ handed_number (stands_first (compare_call left.now right.now)) }
{
    match record_compare::stands_first(left, right) {
        HandedBack::Left => 1,
        HandedBack::Right => 2,
        HandedBack::Empty => 0,
    }
}
