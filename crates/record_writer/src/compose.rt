// The record to be written, composed in an array with room for every record: up to the first count that is too large, and no further.
ghost use Rattle.std.specs.Prelude.{◌≡◌, true, ◌+◌, ◌%◌, ◌≤◌, length, take};
ghost use Rattle.model.specs.Sections.{sections_from, question23, all_whole};
ghost use Rattle.record_writer.specs.Cut.{cut_pairs, cut_programs, cut_record};
ghost use Rattle.record_writer.specs.Puts.{Puts};

use crate::entries::{program_length, put_entries};
use record_decoded::types::{
    ENTRY_LENGTH, LINE_LENGTH, MOST_INSTRUCTIONS, MOST_LINES, MOST_PAIRS, MOST_PROCESSORS,
    PAIR_LENGTH, VALUE_LENGTH, copy_bytes,
};

// No record is longer: P and the count of lines, the lines, the counts of programs, the longest entries, the count of pairs and the pairs.
pub const MAX_RECORD: usize = 2
    + LINE_LENGTH * MOST_LINES as usize
    + MOST_PROCESSORS as usize
    + (ENTRY_LENGTH + VALUE_LENGTH) * MOST_INSTRUCTIONS
    + 1
    + PAIR_LENGTH * MOST_PAIRS as usize;

// The pairs behind their count; where there are too many, a count that says so, and no more.
fn put_pairs(out: &mut [u8], at: usize, pairs: &[u8]) -> usize
    requires { (at + 81 ≤ length out.old) × (length pairs.now % 2 ≡ 0) }
    ensures { Puts out.old at (cut_pairs pairs.now) out.new result }
{
    let n = pairs.len() / PAIR_LENGTH;
    if (MOST_PAIRS as usize) < n {
        out[at] = MOST_PAIRS + 1;
        return at + 1;
    }
    out[at] = n as u8;
    copy_bytes(out, at + 1, pairs, 0, pairs.len());
    at + 1 + pairs.len()
}

// The programs, each behind its count, then the pairs; up to the first count with which there are too many instructions.
fn put_programs(
    out: &mut [u8],
    at: usize,
    processors: u8,
    instructions: &[u8],
    pairs: &[u8],
) -> usize
    requires { (length out.old ≡ 923) × (at ≤ 74) × (processors ≤ 8) × (all_whole instructions.now ≡ true) × (length pairs.now % 2 ≡ 0) }
    ensures { Puts out.old at (cut_programs instructions.now pairs.now 0 processors 0) out.new result }
{
    let mut next = at;
    let mut count = 0;
    for p in 0..processors {
        let n = program_length(instructions, p);
        if MOST_INSTRUCTIONS - count < n {
            out[next] = MOST_INSTRUCTIONS as u8 + 1;
            return next + 1;
        }
        out[next] = n as u8;
        next = put_entries(out, next + 1, instructions, p);
        count = count + n;
    }
    put_pairs(out, next, pairs)
}

// The record of whole sections, or as much of it as its walk can meet; answers how long that is.
pub fn compose(
    out: &mut [u8],
    processors: u8,
    lines: &[u8],
    instructions: &[u8],
    pairs: &[u8],
) -> usize
    requires { (length out.old ≡ 923) × (question23 (sections_from processors lines.now instructions.now pairs.now) ≡ true) }
    ensures { (take result out.new ≡ cut_record (sections_from processors lines.now instructions.now pairs.now)) × (result ≤ 923) }
{
    out[0] = processors;
    if MOST_PROCESSORS < processors {
        return 1;
    }
    let n = lines.len() / LINE_LENGTH;
    if (MOST_LINES as usize) < n {
        out[1] = MOST_LINES + 1;
        return 2;
    }
    out[1] = n as u8;
    copy_bytes(out, 2, lines, 0, lines.len());
    put_programs(out, 2 + lines.len(), processors, instructions, pairs)
}
