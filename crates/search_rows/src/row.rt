// The row of one operation: 21 words.
ghost use Rattle.std.specs.Prelude.{◌≡◌, true, cond, ◌&&◌, List, ℕ, ◌+◌, ◌-◌, ◌<◌, get_or, eqb};
ghost use Rattle.model.specs.Execution.{is_semaphore, R, number_from};
ghost use Rattle.model.specs.Accepted.{Accepted};
ghost use Rattle.record_decoded.specs.Kinds.{meant};
ghost use Rattle.record_decoded.specs.Decoded.{execution_of};
ghost use Rattle.relation_links.specs.Compiled.{Compiled};
ghost use Rattle.search_admit.specs.Rows.{writes, visible_at, own_at, RowOf};
ghost use Rattle.search_rows.specs.Lent.{Lent, CoveredBits, RelativeValues, PairAt};

use crate::words::ACCESS_WORDS;
use record_decoded::kind::{
    Kind, ROLE_LV, ROLE_R, ROLE_RV, Role, is_semaphore, kind_of, number_of,
};
use record_decoded::position::Position;
use record_decoded::types::{
    Execution, InstructionNo, MOST_INSTRUCTIONS, MOST_LINES, OperationNo, wide, wide16,
};
use relation_links::operations::Operations;
use search_admit::{ROW, WORDS};
use search_constraints::{awaited_at, bypasses_at, partners_at, preds_at};

// The words of an access in its line and in the next.
#[derive(Clone, Copy)]
pub struct TwoWords {
    pub first: u64,
    pub next: u64,
}

// Whether an operation with a role writes: an LV or an RV.
fn is_writing(role: u8) -> bool
    ensures { result ≡ writes role }
{
    if role == ROLE_LV {
        true
    } else {
        role >= ROLE_RV
    }
}

// The two words of an instruction in an array.
fn words_at(words: &[u64; ACCESS_WORDS], w: InstructionNo) -> TwoWords
    requires { w.0 < 40 }
    ensures { PairAt words.now w.0 result.first result.next }
{
    let at = w.0;
    let first = words[2 * at];
    let next = words[2 * at + 1];
    TwoWords { first, next }
}

// Words where they are wanted, else 0.
fn wanted(is: bool, words: TwoWords) -> TwoWords
    ensures { (result.first ≡ cond is words.first 0) × (result.next ≡ cond is words.next 0) }
{
    if is {
        words
    } else {
        TwoWords { first: 0, next: 0 }
    }
}

// The number of an operation's store's operation, or its own.
fn number_or_own(writing: bool, number: OperationNo, o: OperationNo) -> OperationNo
    ensures { result.0 ≡ cond writing number.0 o.0 }
{
    if writing { number } else { o }
}

// The number of the R of an operation's semaphore, or its own, by whether it writes and its instruction's kind and first operation.
fn read_or_own(writing: bool, kind: Kind, first: OperationNo, o: OperationNo) -> OperationNo
    requires { first.0 < 65536 }
    ensures { result.0 ≡ cond (writing && is_semaphore (meant kind)) (number_from first.0 (meant kind) R) o.0 }
{
    if writing && is_semaphore(kind) {
        number_of(first, kind, Role::R)
    } else {
        o
    }
}

// The word of memory for a line as a processor sees it.
fn visible_at(processor: usize, line: usize) -> usize
    requires { (processor < 256) × (line < 256) }
    ensures { (result ≡ visible_at processor line) × (result < 65536) }
{
    MOST_LINES as usize * processor + line
}

// The word of memory for what the processor's own stores wrote to a line.
fn own_at(processor: usize, line: usize) -> usize
    requires { (processor < 256) × (line < 256) }
    ensures { (result ≡ own_at processor line) × (result < 65536) }
{
    WORDS / 2 + MOST_LINES as usize * processor + line
}

// The word that an LV or an RV writes. Another operation writes no bits, and to the last word: where it wrote to one that loads read, the search would ask
// these again behind it.
fn word_of(role: u8, processor: usize, line: usize) -> usize
    requires { (processor < 256) × (line < 256) }
    ensures { writes role ≡ true → result ≡ cond (eqb role 1) (own_at processor line) (visible_at (role - 3) line) }
{
    if role == ROLE_LV {
        return own_at(processor, line);
    }
    if role < ROLE_RV {
        return WORDS - 1;
    }
    visible_at(wide(role - ROLE_RV), line)
}

// The row of operation o, by the arrays of the operations and the instructions and the instructions' words, that are lent for all rows. Of these only the values
// depend on the initial bytes.
pub fn row_of<'a>(
    x: Execution,
    t: Operations,
    marks: &'a [[u16; MOST_INSTRUCTIONS]; MOST_INSTRUCTIONS],
    owners: &'a [u8; Position::LIMIT],
    roles: &'a [u8; Position::LIMIT],
    kinds: &'a [u8; MOST_INSTRUCTIONS],
    firsts: &'a [u16; MOST_INSTRUCTIONS],
    processors: &'a [u8; MOST_INSTRUCTIONS],
    addresses: &'a [u8; MOST_INSTRUCTIONS],
    sizes: &'a [u8; MOST_INSTRUCTIONS],
    bits: &'a [u64; ACCESS_WORDS],
    seen: &'a [u64; ACCESS_WORDS],
    written: &'a [u64; ACCESS_WORDS],
    o: OperationNo,
) -> [u64; ROW]
    requires { Compiled x t marks.now × ((bytes : List ℕ) → Accepted (execution_of bytes x)) × (o.0 < t.count) × Lent x t owners.now roles.now kinds.now firsts.now processors.now addresses.now sizes.now × CoveredBits x bits.now }
    ensures { (bytes : List ℕ) → RelativeValues bytes x seen.now written.now → RowOf x t marks.now o.0 bytes (λ (f : ℕ). get_or result f 0) }
{
    let every = x.processors;
    let n = x.instructions.count;
    let number = o.0;
    let w = wide(owners[number]);
    let role = roles[number];
    let kind = kind_of(kinds[w]);
    let first = wide16(firsts[w]);
    let processor = wide(processors[w]);
    let address = wide(addresses[w]);
    let line = address / 8;
    let preds = preds_at(
        n,
        every,
        kinds,
        firsts,
        processors,
        marks,
        InstructionNo(w),
        role,
    );
    let partners = partners_at(marks[w][w], role, kind, OperationNo(first), every);
    let awaited = awaited_at(n, kinds, firsts, processors, marks, InstructionNo(w), role);
    let bypasses = bypasses_at(
        n,
        kinds,
        firsts,
        processors,
        addresses,
        sizes,
        InstructionNo(w),
        role,
    );
    let covered = words_at(bits, InstructionNo(w));
    let saw = words_at(seen, InstructionNo(w));
    let wrote = words_at(written, InstructionNo(w));
    let writing = is_writing(role);
    let reading = role == ROLE_R;
    let written_bits = wanted(writing, covered);
    let written_data = wanted(writing, wrote);
    let written_word = word_of(role, processor, line) as u64;
    let read_bits = wanted(reading, covered);
    let read_data = wanted(reading, saw);
    let visible_word = visible_at(processor, line) as u64;
    let own_rv = number_of(OperationNo(first), kind, Role::RV(processor));
    let lv = number_of(OperationNo(first), kind, Role::LV);
    let own = number_or_own(writing, own_rv, o);
    let local = number_or_own(writing, lv, o);
    let read = read_or_own(writing, kind, OperationNo(first), o);
    let own_number = own.0 as u64;
    let local_number = local.0 as u64;
    let read_number = read.0 as u64;
    [
        awaited.lo,
        awaited.hi,
        partners.lo,
        partners.hi,
        written_word,
        written_bits.first,
        written_bits.next,
        written_data.first,
        written_data.next,
        preds.lo,
        preds.hi,
        bypasses.lo,
        bypasses.hi,
        visible_word,
        read_bits.first,
        read_bits.next,
        read_data.first,
        read_data.next,
        own_number,
        local_number,
        read_number,
    ]
}
