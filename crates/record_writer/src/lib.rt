// The write call: a record out of separate sections.
#![tactic(auto)]

ghost use Rattle.std.specs.Prelude.{◌≡◌, true};
ghost use Rattle.model.specs.Calls.{record_reply};
ghost use Rattle.model.specs.Sections.{sections_from, question23, record_of, write_record, write_call};
ghost use Rattle.record_writer.specs.Replies.{reply_of};

use crate::compose::{MAX_RECORD, compose};
use crate::entries::{all_below, all_whole};
use record_decoded::question::Question;
use record_decoded::types::{LINE_LENGTH, PAIR_LENGTH};
use record_reader::reader::read;

pub mod compose;
pub mod entries;

// The record of whole sections: its own questions, then question 25. Answers how long it is.
fn write_record(
    processors: u8,
    lines: &[u8],
    instructions: &[u8],
    pairs: &[u8],
    buffer: &mut [u8],
) -> Result<usize, Question>
    requires { question23 (sections_from processors lines.now instructions.now pairs.now) ≡ true }
    ensures { reply_of result buffer.new ≡ record_reply buffer.old (write_record (record_of (sections_from processors lines.now instructions.now pairs.now)) buffer.old) }
{
    let mut composed = [0u8; MAX_RECORD];
    let length = compose(&mut composed, processors, lines, instructions, pairs);
    let record = &composed[..length];
    read(record)?;
    if buffer.len() < length {
        return Err(Question::RecordRoom);
    }
    buffer[..length].copy_from_slice(record);
    Ok(length)
}

// Writes the record of the sections at the front of the buffer, and answers how long it is.
pub fn write(
    processors: u8,
    lines: &[u8],
    instructions: &[u8],
    pairs: &[u8],
    buffer: &mut [u8],
) -> Result<usize, Question>
    ensures { reply_of result buffer.new ≡ write_call (sections_from processors lines.now instructions.now pairs.now) buffer.old }
{
    if lines.len() % LINE_LENGTH != 0
        || !all_whole(instructions)
        || pairs.len() % PAIR_LENGTH != 0
    {
        return Err(Question::WholeEntries);
    }
    if !all_below(instructions, processors) {
        return Err(Question::EntryProcessors);
    }
    write_record(processors, lines, instructions, pairs, buffer)
}
