// The section of programs, one for each processor.
#![tactic(auto)]

ghost use Rattle.std.specs.Prelude.{◌≡◌, ◌==◌, true, cond, List, [], ℕ, ◌+◌, ◌*◌, ◌<◌, ◌≤◌, IfOk, length, get_or, drop};
ghost use Rattle.std.specs.Borrow.{Bor};
ghost use Rattle.std.specs.List.{list_all, range_with_len};
ghost use Rattle.model.specs.Execution.{Instruction, WC, attribute_number, is_semaphore, operation_count};
ghost use Rattle.model.specs.Questions.{more_length, question7, question8, question9, question26, question27, instruction_of, read_instruction, read_program, read_programs, read_instructions};
ghost use Rattle.record_decoded.specs.Kinds.{meant};
ghost use Rattle.record_decoded.specs.Decoded.{attributes_of, instructions_of, Counted};
ghost use Rattle.record_decoded.specs.Reads.{found_by, Entry, InstructionMore};

use record_decoded::kind::{Kind, LAST_KIND, is_fence, is_semaphore, kind_of, operation_count};
use record_decoded::memory::{attribute_in, is_wb, number_at_line};
use record_decoded::position::Position;
use record_decoded::question::Question;
use record_decoded::types::{
    DATA_STRIDE, ENTRY_LENGTH, Instructions, Lines, MOST_INSTRUCTIONS, VALUE_LENGTH, WIDE_SIZE,
    copy_bytes, wide,
};

pub fn no_instructions() -> Instructions
    ensures { (result.count ≡ 0) × (result.operations ≡ 0) × (instructions_of result ≡ []) }
{
    Instructions {
        count: 0,
        operations: 0,
        processors: [0u8; MOST_INSTRUCTIONS],
        kinds: [0u8; MOST_INSTRUCTIONS],
        addresses: [0u8; MOST_INSTRUCTIONS],
        sizes: [0u8; MOST_INSTRUCTIONS],
        firsts: [0u16; MOST_INSTRUCTIONS],
        bytes: [0u8; DATA_STRIDE * MOST_INSTRUCTIONS],
    }
}

// The sizes of accesses. The last is none of a semaphore.
const SIZES: [u8; 5] = [1, 2, 4, 8, WIDE_SIZE];

// How many of these sizes the accesses of a kind have, from the first on.
fn size_count(k: Kind) -> usize
    ensures { (result ≡ cond (is_semaphore (meant k)) 4 5) × (result ≤ 5) }
{
    if is_semaphore(k) {
        return SIZES.len() - 1;
    }
    SIZES.len()
}

// Question 7.
fn size_passes(k: Kind, size: u8) -> bool
    ensures { result ≡ question7 (meant k) size }
{
    if is_fence(k) {
        return size == 0;
    }
    SIZES[..size_count(k)].contains(&size)
}

// Question 26.
fn line_passes(lines: Lines, k: Kind, address: u8) -> bool
    requires { lines.count ≤ 8 }
    ensures { result ≡ question26 (attributes_of lines) (meant k) address }
{
    !is_semaphore(k) || is_wb(attribute_in(lines, address))
}

// Whether so many lines from the first on have the attribute of a number.
fn lines_alike(lines: Lines, first: usize, count: usize, number: usize) -> bool
    requires { (lines.count ≤ 8) × (first < 256) × (count < 256) }
    ensures { result ≡ list_all (λ i. attribute_number (get_or (attributes_of lines) (first + i) WC) == number) (range_with_len 0 count) }
{
    (0..count).all(|i| number_at_line(lines, first + i) == number)
}

// Question 27, over the lines of the access.
fn one_attribute(lines: Lines, size: u8, address: u8) -> bool
    requires { lines.count ≤ 8 }
    ensures { result ≡ question27 (attributes_of lines) size address }
{
    let first = wide(address) / 8;
    let count = (wide(size) + 7) / 8;
    lines_alike(lines, first, count, number_at_line(lines, first))
}

// The bytes that an instruction has after the first eleven.
pub fn more_length(k: Kind, size: u8) -> usize
    ensures { (result ≡ more_length (meant k) size) × (result ≤ 8) }
{
    if is_semaphore(k) {
        return VALUE_LENGTH;
    }
    if size == WIDE_SIZE { VALUE_LENGTH } else { 0 }
}

// Question 8, of a size that passes question 7.
fn address_passes(lines: usize, k: Kind, size: u8, address: u8) -> bool
    requires { (lines ≤ 8) × (question7 (meant k) size ≡ true) }
    ensures { result ≡ question8 lines (meant k) size address }
{
    if is_fence(k) {
        return address == 0;
    }
    if address % size != 0 {
        return false;
    }
    let end = address as usize + size as usize;
    end <= 8 * lines
}

// Whether the bytes of a value past the size are zero.
fn spare_zero(value: &[u8], size: usize) -> bool
    ensures { result ≡ list_all (λ b. b == 0) (drop size value.now) }
{
    value.iter().skip(size).all(|&b| b == 0)
}

// Question 9, of the eight data bytes and those after them.
fn data_passes(data: &[u8], size: usize) -> bool
    requires { 8 ≤ length «data».now }
    ensures { result ≡ question9 size «data».now }
{
    let (value, more) = data.split_at(VALUE_LENGTH);
    spare_zero(value, size) && spare_zero(more, size)
}

// The entry of the instruction at the front of a part, and what is left behind it.
fn read_entry(part: &[u8], lines: Lines) -> Result<(&[u8], &[u8]), Question>
    requires { lines.count ≤ 8 }
    ensures walked { (processors p : ℕ) (done : List Instruction)
        → read_instruction processors (attributes_of lines) p done part.now ≡ found_by (λ (entry : Bor (List ℕ)). instruction_of processors p done entry.now) result }
    ensures entry { IfOk result (λ r. Entry r.0.now) }
{
    if part.len() < ENTRY_LENGTH {
        return Err(Question::Bytes);
    }
    let k = part[0];
    if LAST_KIND < k {
        return Err(Question::Kind);
    }
    let kind = kind_of(k);
    let address = part[1];
    let size = part[2];
    if !size_passes(kind, size) {
        return Err(Question::Size);
    }
    let more = more_length(kind, size);
    let length = ENTRY_LENGTH + more;
    if part.len() < length {
        return Err(Question::Bytes);
    }
    let (entry, rest) = part.split_at(length);
    if !address_passes(lines.count, kind, size, address) {
        return Err(Question::Address);
    }
    if !line_passes(lines, kind, address) {
        return Err(Question::SemaphoreLine);
    }
    if !one_attribute(lines, size, address) {
        return Err(Question::LinesOfAccess);
    }
    if !data_passes(&entry[3..], size as usize) {
        return Err(Question::SpareData);
    }
    Ok((entry, rest))
}

// One instruction more, of processor p, from its entry.
fn with_instruction(x: Instructions, entry: &[u8], processors: usize, p: u8) -> Instructions
    requires { (x.count < 40) × Entry entry.now × (processors ≤ 8) × (x.operations ≤ 10 * x.count) × (x.operations ≡ operation_count processors (instructions_of x)) }
    ensures { InstructionMore processors x result (instruction_of processors p (instructions_of x) entry.now) }
{
    let i = x.count;
    let mut more = x;
    let kind = kind_of(entry[0]);
    let data = VALUE_LENGTH + more_length(kind, entry[2]);
    more.processors[i] = p;
    more.kinds[i] = entry[0];
    more.addresses[i] = entry[1];
    more.sizes[i] = entry[2];
    more.firsts[i] = x.operations as u16;
    copy_bytes(&mut more.bytes, DATA_STRIDE * i, entry, 3, data);
    more.count = i + 1;
    more.operations = x.operations + operation_count(kind, processors);
    more
}

// The program of processor p, as the part of the record that starts at its count, added to the instructions of `is`; and what is left behind it.
fn read_program<'a>(
    part: &'a [u8],
    lines: Lines,
    processors: usize,
    p: u8,
    is: Instructions,
) -> Result<(Instructions, &'a [u8]), Question>
    requires few { (lines.count ≤ 8) × (processors ≤ 8) }
    requires counted { Counted processors is }
    ensures walked { read_program processors (attributes_of lines) p (instructions_of is) part.now ≡ found_by instructions_of result }
    ensures counted { IfOk result (λ r. Counted processors r.0) }
{
    let Some((&n, mut rest)) = part.split_first() else {
        return Err(Question::Bytes);
    };
    if MOST_INSTRUCTIONS - is.count < wide(n) {
        return Err(Question::Instructions);
    }
    let mut instructions = is;
    for _ in 0..n {
        let (entry, after) = read_entry(rest, lines)?;
        instructions = with_instruction(instructions, entry, processors, p);
        rest = after;
    }
    Ok((instructions, rest))
}

// The programs of all processors, one after the other, and what is left behind them.
fn read_programs(
    part: &[u8],
    lines: Lines,
    processors: usize,
) -> Result<(Instructions, &[u8]), Question>
    requires { (lines.count ≤ 8) × (processors ≤ 8) }
    ensures walked { read_programs processors (attributes_of lines) 0 processors [] part.now ≡ found_by instructions_of result }
    ensures counted { IfOk result (λ r. Counted processors r.0) }
{
    let mut instructions = no_instructions();
    let mut rest = part;
    for p in 0..processors {
        let (more, after) = read_program(rest, lines, processors, p as u8, instructions)?;
        instructions = more;
        rest = after;
    }
    Ok((instructions, rest))
}

// The programs, and question 11 after the last; and what is left behind them.
pub fn read_instructions(
    part: &[u8],
    lines: Lines,
    processors: usize,
) -> Result<(Instructions, &[u8]), Question>
    requires { (lines.count ≤ 8) × (processors ≤ 8) }
    ensures walked { read_instructions processors (attributes_of lines) part.now ≡ found_by instructions_of result }
    ensures counted { IfOk result (λ r. Counted processors r.0) }
{
    let (instructions, rest) = read_programs(part, lines, processors)?;
    if Position::LIMIT < instructions.operations {
        return Err(Question::Operations);
    }
    Ok((instructions, rest))
}
