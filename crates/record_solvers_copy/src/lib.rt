// The solvers' copy: a record with zeros in place of all that was seen.
#![tactic(auto)]

ghost use Rattle.std.specs.Prelude.{◌≡◌, true, ◌≤◌, length, ltb};
ghost use Rattle.base.specs.Lists.{all, count};
ghost use Rattle.record_decoded.specs.Kinds.{meant};
ghost use Rattle.record_decoded.specs.Decoded.{instructions_of};
ghost use Rattle.model.specs.SolversCopy.{seen_length, seen_places, zeroed, solvers_copy_call};
ghost use Rattle.record_writer.specs.Replies.{reply_of};

use record_decoded::kind::{Kind, is_load, is_semaphore, kind_of};
use record_decoded::question::Question;
use record_decoded::types::{
    ENTRY_LENGTH, Instructions, LINE_LENGTH, VALUE_LENGTH, copy_bytes, wide,
};
use record_programs::more_length;
use record_reader::reader::read;

// What stands before the data bytes of a first instruction of processor 0, without the lines: P, their count, the program's count, then its kind, address and size.
const FIRST_DATA: usize = 2 + 1 + 3;

// How many data bytes of an instruction are what was seen.
fn seen_length(k: Kind, size: u8) -> usize
    ensures { result ≡ seen_length (meant k) size }
{
    if is_semaphore(k) {
        return VALUE_LENGTH;
    }
    if is_load(k) {
        VALUE_LENGTH + more_length(k, size)
    } else {
        0
    }
}

// Zeros in n bytes from `at` on.
fn clear(bytes: &mut [u8], at: usize, n: usize)
    requires { all (λ k. ltb k (length bytes.old)) (count at n) ≡ true }
    ensures { bytes.new ≡ zeroed (count at n) bytes.old }
{
    if n > 0 {
        bytes[at..at + n].fill(0);
    }
}

// Zeros in place of all that was seen, in bytes that begin with the record of so many lines and these instructions.
fn clear_seen(bytes: &mut [u8], lines: usize, is: Instructions)
    requires { (lines ≤ 8) × (is.count ≤ 40) × (all (λ k. ltb k (length bytes.old)) (seen_places lines (instructions_of is)) ≡ true) }
    ensures { bytes.new ≡ zeroed (seen_places lines (instructions_of is)) bytes.old }
{
    let mut place = FIRST_DATA + LINE_LENGTH * lines;
    for i in 0..is.count {
        let kind = kind_of(is.kinds[i]);
        let size = is.sizes[i];
        let at = place + wide(is.processors[i]);
        clear(bytes, at, seen_length(kind, size));
        place = place + ENTRY_LENGTH + more_length(kind, size);
    }
}

// Writes the solvers' copy of a record at the front of the buffer, and answers how long it is.
pub fn solvers_copy(bytes: &[u8], buffer: &mut [u8]) -> Result<usize, Question>
    ensures { reply_of result buffer.new ≡ solvers_copy_call bytes.now buffer.old }
{
    let execution = read(bytes)?;
    if buffer.len() < bytes.len() {
        return Err(Question::RecordRoom);
    }
    let copy = &mut buffer[..bytes.len()];
    copy_bytes(copy, 0, bytes, 0, bytes.len());
    clear_seen(copy, execution.lines.count, execution.instructions);
    Ok(bytes.len())
}
