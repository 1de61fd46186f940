// What two instructions are to each other: all marks of a pair of instructions, and those of every pair.
ghost use Rattle.std.specs.Prelude.{◌≡◌, cond, not, ◌&&◌, ◌||◌, List, ℕ, ◌+◌, ◌*◌, ◌/◌, ◌<◌, ◌≤◌, get_or};
ghost use Rattle.model.specs.Execution.{WC, kind_of, is_load, is_store, is_semaphore, is_release, is_WB, is_UC, same_domain};
ghost use Rattle.record_decoded.specs.Kinds.{meant, attribute_meant};
ghost use Rattle.record_decoded.specs.Decoded.{attributes_of, instruction_at, execution_of};
ghost use Rattle.relation_marks.specs.Marks.{program_marks, marks_by, marks_between, mark_at};

use crate::memory::{is_pair, is_uc, same_domain};
use crate::table::{
    ATOMIC, BYPASS, CONFLICT, DOMAIN, FIRST_SEMAPHORE, OVERLAP, PAIR, SAME, SECOND_SEMAPHORE,
    SEMAPHORE, overlaps, program_marks,
};
use record_decoded::kind::{Attribute, Kind, is_load, is_release, is_semaphore, is_store, kind_of};
use record_decoded::memory::{attribute_in, is_wb};
use record_decoded::types::{Execution, InstructionNo, MOST_INSTRUCTIONS};

// What two instructions are to each other: whether they are one, whether they are of one processor, whether the first is an earlier one of the second's
// program, whether they share a byte, and whether they are a given pair.
#[derive(Clone, Copy)]
struct Between {
    same: bool,
    own: bool,
    earlier: bool,
    overlaps: bool,
    given: bool,
}

// The kind of an instruction, and the attribute of its memory.
#[derive(Clone, Copy)]
struct Access {
    kind: Kind,
    attribute: Attribute,
}

impl Access {
    // WB or UC.
    fn is_coherent(self) -> bool
        ensures { result ≡ (is_WB (attribute_meant self.attribute) || is_UC (attribute_meant self.attribute)) }
    {
        is_wb(self.attribute) || is_uc(self.attribute)
    }
}

// Conflicting stores.
fn is_conflict(between: Between, first: Access, second: Access) -> bool
    ensures { result ≡ (is_store (meant first.kind) && is_store (meant second.kind) && (not between.same && between.overlaps && ((is_WB (attribute_meant first.attribute) || is_UC (attribute_meant first.attribute)) && (is_WB (attribute_meant second.attribute) || is_UC (attribute_meant second.attribute))))) }
{
    is_store(first.kind)
        && is_store(second.kind)
        && !between.same
        && between.overlaps
        && first.is_coherent()
        && second.is_coherent()
}

// A UC store and an overlapping load of its processor.
fn is_bypass(between: Between, first: Access, second: Access) -> bool
    ensures { result ≡ (is_store (meant first.kind) && is_load (meant second.kind) && (is_UC (attribute_meant first.attribute) && (between.own && between.overlaps))) }
{
    is_store(first.kind)
        && is_load(second.kind)
        && is_uc(first.attribute)
        && between.own
        && between.overlaps
}

// One release to WB.
fn is_atomic(between: Between, first: Access) -> bool
    ensures { result ≡ (between.same && (is_store (meant first.kind) && (is_release (meant first.kind) && is_WB (attribute_meant first.attribute)))) }
{
    between.same && is_store(first.kind) && is_release(first.kind) && is_wb(first.attribute)
}

// A semaphore and another overlapping store.
fn is_lock(between: Between, first: Kind, second: Kind) -> bool
    ensures { result ≡ (is_semaphore (meant first) && is_store (meant second) && (not between.same && between.overlaps)) }
{
    is_semaphore(first) && is_store(second) && !between.same && between.overlaps
}

// The marks that only an earlier instruction of the second's program has: of rules 2, 3 and 4, of a shared byte and of UC memory of one domain.
fn earlier_marks(between: Between, first: Access, second: Access) -> u16
    ensures { (result ≡ cond between.earlier (program_marks (meant first.kind) (meant second.kind) + 16 * cond between.overlaps 1 0 + 64 * cond (same_domain (attribute_meant first.attribute) (attribute_meant second.attribute)) 1 0) 0) × (result ≤ 94) }
{
    if !between.earlier {
        return 0;
    }
    let in_one_domain = same_domain(first.attribute, second.attribute);
    program_marks(first.kind, second.kind)
        + OVERLAP * u16::from(between.overlaps)
        + DOMAIN * u16::from(in_one_domain)
}

// All marks of two instructions, by what they are to each other.
fn marks_by(between: Between, first: Access, second: Access) -> u16
    ensures { result ≡ marks_by between.same between.own between.earlier between.overlaps between.given (meant first.kind) (meant second.kind) (attribute_meant first.attribute) (attribute_meant second.attribute) }
{
    SAME * u16::from(between.same)
        + earlier_marks(between, first, second)
        + PAIR * u16::from(between.given)
        + CONFLICT * u16::from(is_conflict(between, first, second))
        + BYPASS * u16::from(is_bypass(between, first, second))
        + ATOMIC * u16::from(is_atomic(between, first))
        + SEMAPHORE * u16::from(is_lock(between, first.kind, second.kind))
        + FIRST_SEMAPHORE * u16::from(is_semaphore(first.kind))
        + SECOND_SEMAPHORE * u16::from(is_semaphore(second.kind))
}

// Instruction i as an access; an mf is asked as one, of address 0.
fn access_of(x: &Execution, i: usize) -> Access
    requires { (i < 40) × (x.now.lines.count ≤ 8) }
    ensures kind { meant result.kind ≡ kind_of (get_or x.now.instructions.kinds i 0) }
    ensures attribute { attribute_meant result.attribute ≡ get_or (attributes_of x.now.lines) (get_or x.now.instructions.addresses i 0 / 8) WC }
{
    let is = &x.instructions;
    Access {
        kind: kind_of(is.kinds[i]),
        attribute: attribute_in(x.lines, is.addresses[i]),
    }
}

// The marks of an instruction with each instruction.
fn marks_row(x: &Execution, i: InstructionNo) -> [u16; MOST_INSTRUCTIONS]
    requires { (i.0 < 40) × (x.now.instructions.count ≤ 40) × (x.now.lines.count ≤ 8) × (x.now.pairs.count ≤ 40) }
    ensures { (bytes : List ℕ) (k : ℕ) → k < x.now.instructions.count → get_or result k 0 ≡ marks_between (execution_of bytes x.now) (instruction_at x.now.instructions i.0) (instruction_at x.now.instructions k) }
{
    let is = &x.instructions;
    let i = i.0;
    let address = is.addresses[i];
    let first = access_of(x, i);
    let mut row = [0u16; MOST_INSTRUCTIONS];
    for k in 0..is.count {
        let own = is.processors[i] == is.processors[k];
        let between = Between {
            same: i == k,
            own,
            earlier: own && i < k,
            overlaps: overlaps(address, is.sizes[i], is.addresses[k], is.sizes[k]),
            given: is_pair(x.pairs, InstructionNo(i), InstructionNo(k)),
        };
        row[k] = marks_by(between, first, access_of(x, k));
    }
    row
}

// The marks of every two instructions.
pub fn all_marks(x: Execution) -> [[u16; MOST_INSTRUCTIONS]; MOST_INSTRUCTIONS]
    requires { (x.instructions.count ≤ 40) × (x.lines.count ≤ 8) × (x.pairs.count ≤ 40) }
    ensures { (bytes : List ℕ) (m k : ℕ) → m < x.instructions.count → k < x.instructions.count → mark_at result m k ≡ marks_between (execution_of bytes x) (instruction_at x.instructions m) (instruction_at x.instructions k) }
{
    let mut marks = [[0u16; MOST_INSTRUCTIONS]; MOST_INSTRUCTIONS];
    for m in 0..x.instructions.count {
        marks[m] = marks_row(&x, InstructionNo(m));
    }
    marks
}
