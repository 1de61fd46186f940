// The reader of a whole record.
ghost use Rattle.std.specs.Prelude.{◌≡◌, List, ℕ, ◌≤◌, drop};
ghost use Rattle.model.specs.Calls.{answer_of, read_all};
ghost use Rattle.record_decoded.specs.Decoded.{lines_of, instructions_of};
ghost use Rattle.record_reader.specs.Readings.{reading_of, after_lines, after_instructions};

use record_decoded::question::Question;
use record_decoded::types::{Execution, Instructions, Lines, MOST_PROCESSORS, wide};
use record_lines::read_lines;
use record_pairs::read_pairs;
use record_programs::read_instructions;

// What follows the programs: the pairs, and the end of the record. (Here and below only a section of the record is lent. The initial bytes stand before it, and
// each contract holds whatever they are.)
fn read_end(
    part: &[u8],
    processors: usize,
    lines: Lines,
    instructions: Instructions,
) -> Result<Execution, Question>
    requires { instructions.count ≤ 40 }
    ensures { (bytes : List ℕ) → answer_of (after_instructions processors (lines_of (drop 1 bytes) lines) (instructions_of instructions) part.now) ≡ reading_of bytes result }
{
    let (pairs, rest) = read_pairs(part, instructions)?;
    if !rest.is_empty() {
        return Err(Question::End);
    }
    Ok(Execution {
        processors,
        lines,
        instructions,
        pairs,
    })
}

// What follows the lines.
fn read_rest(part: &[u8], processors: usize, lines: Lines) -> Result<Execution, Question>
    requires { (processors ≤ 8) × (lines.count ≤ 8) }
    ensures { (bytes : List ℕ) → answer_of (after_lines processors (lines_of (drop 1 bytes) lines) part.now) ≡ reading_of bytes result }
{
    let (instructions, rest) = read_instructions(part, lines, processors)?;
    read_end(rest, processors, lines, instructions)
}

// The execution that a record holds, but for its initial bytes, which stay in the record; or the first question that it fails.
pub fn read(bytes: &[u8]) -> Result<Execution, Question>
    ensures { read_all bytes.now ≡ reading_of bytes.now result }
{
    let Some((&processors, part)) = bytes.split_first() else {
        return Err(Question::Bytes);
    };
    if processors < 1 || MOST_PROCESSORS < processors {
        return Err(Question::Processors);
    }
    let (lines, rest) = read_lines(part)?;
    read_rest(rest, wide(processors), lines)
}
