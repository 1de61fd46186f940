// Where the programs of a record begin, and the pairs of a processor by numbers within its program.
ghost use Rattle.std.specs.Prelude.{◌≡◌, ◌-◌, ◌≤◌, length, get_or, take};
ghost use Rattle.model.specs.Questions.{no_instruction};
ghost use Rattle.model.specs.SolversCopy.{entries_length};
ghost use Rattle.model.specs.Renumbering.{lower_instructions};
ghost use Rattle.record_decoded.specs.Decoded.{instructions_of, pairs_of};
ghost use Rattle.record_form.specs.Places.{StartsMean, key_end};

use record_decoded::kind::kind_of;
use record_decoded::types::{
    ENTRY_LENGTH, Instructions, LINE_LENGTH, MOST_PAIRS, MOST_PROCESSORS, PAIR_LENGTH, Pairs, wide,
};
use record_programs::more_length;

// How many instructions the processors below one have, and how many bytes their entries.
#[derive(Clone, Copy)]
pub struct Lower {
    pub count: usize,
    pub bytes: usize,
}

fn count_lower(is: Instructions, p: usize) -> Lower
    requires { is.count ≤ 40 }
    ensures { (result.count ≡ length (lower_instructions (instructions_of is) p)) × (result.bytes ≡ entries_length (lower_instructions (instructions_of is) p)) }
{
    let mut count = 0;
    let mut bytes = 0;
    for i in 0..is.count {
        if wide(is.processors[i]) < p {
            count = count + 1;
            let more = more_length(kind_of(is.kinds[i]), is.sizes[i]);
            bytes = bytes + ENTRY_LENGTH + more;
        }
    }
    Lower { count, bytes }
}

// For each processor where its program begins in the record, and how many instructions stand before it. Behind the last: where the programs end, and their instructions.
#[derive(Clone, Copy)]
pub struct Starts {
    pub places: [usize; MOST_PROCESSORS as usize + 1],
    pub firsts: [usize; MOST_PROCESSORS as usize + 1],
}

pub fn starts_of(processors: usize, lines: usize, is: Instructions) -> Starts
    requires { (processors ≤ 8) × (lines ≤ 8) × (is.count ≤ 40) }
    ensures { StartsMean processors lines (instructions_of is) result }
{
    let mut places = [0usize; MOST_PROCESSORS as usize + 1];
    let mut firsts = [0usize; MOST_PROCESSORS as usize + 1];
    for p in 0..processors + 1 {
        let before = count_lower(is, p);
        places[p] = 2 + LINE_LENGTH * lines + p + before.bytes;
        firsts[p] = before.count;
    }
    Starts { places, firsts }
}

// The processor of an instruction; of one that is not there 0.
fn owner(is: Instructions, i: usize) -> usize
    requires { is.count ≤ 40 }
    ensures { result ≡ (get_or (instructions_of is) i no_instruction).processor }
{
    if i < is.count {
        wide(is.processors[i])
    } else {
        0
    }
}

// A number less n, or 0.
fn lowered(b: u8, n: usize) -> u8
    ensures { result ≡ b - n }
{
    wide(b).saturating_sub(n) as u8
}

// Above the number of every instruction.
const PAIRS_END: u8 = 255;

// The pairs of one processor as bytes, PAIRS_END behind them; with it they are so many bytes, of an array with room for all, since there is no heap.
#[derive(Clone, Copy)]
pub struct OwnPairs {
    pub bytes: [u8; PAIR_LENGTH * MOST_PAIRS as usize + 1],
    pub length: usize,
}

// The pairs of processor p, before whose program `first` instructions stand.
pub fn own_pairs(is: Instructions, pairs: Pairs, p: usize, first: usize) -> OwnPairs
    requires { (is.count ≤ 40) × (pairs.count ≤ 40) × (first ≡ length (lower_instructions (instructions_of is) p)) }
    ensures { (take result.length result.bytes ≡ key_end (instructions_of is) (pairs_of pairs) p) × (result.length ≤ 81) × (length result.bytes ≡ 81) }
{
    let mut bytes = [0u8; PAIR_LENGTH * MOST_PAIRS as usize + 1];
    let mut at = 0;
    for j in 0..pairs.count {
        let earlier = pairs.earlier[j];
        let later = pairs.later[j];
        if owner(is, wide(earlier)) == p {
            bytes[at] = lowered(earlier, first);
            bytes[at + 1] = lowered(later, first);
            at = at + PAIR_LENGTH;
        }
    }
    bytes[at] = PAIRS_END;
    let length = at + 1;
    OwnPairs { bytes, length }
}
