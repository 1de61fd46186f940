// The search from a position: one walk a step, and one more to see whether anything is left.
ghost use Rattle.std.specs.Prelude.{◌≡◌, true, cond, [], ◌<◌, ◌≤◌};
ghost use Rattle.std.proofs.Math.ListN as ListN;
ghost use Rattle.base.specs.Lists.{distinct};
ghost use Rattle.search_enabled.specs.Affects.{Affecting};
ghost use Rattle.search_walk.specs.Walks.{Kept};
ghost use Rattle.record_decoded.specs.Positions.{position_of};
ghost use Rattle.search_resume.specs.Outcomes.{SearchedFrom, StepsMade};

use crate::replay::{first_level, replay};
use record_decoded::position::Position;
use record_decoded::types::copy_bytes;
use relation_places::ABSENT;
use search_admit::{REPLACED, TABLE, WORDS};
use search_enabled::AFFECTED;
use search_sets::Set;
use search_walk::{LEVELS, Level, walk};

#[derive(Clone, Copy, Debug, PartialEq, Eq)]
pub enum Verdict {
    Unfinished,
    Allowed,
    Forbidden,
}

// What a search from a consistent position comes to: its verdict, its steps and the position it leaves.
#[derive(Clone, Copy)]
pub struct Outcome {
    pub verdict: Verdict,
    pub steps: u32,
    pub position: Position,
}

// The entries of a position, kept in `reached` if these are the last.
fn keep_if(last: bool, entries: &[u8], reached: &mut [u8])
    requires { (ListN.length entries.now ≡ 128) × (ListN.length reached.old ≡ 128) }
    ensures { reached.new ≡ cond last entries.now reached.old }
{
    if last {
        copy_bytes(reached, 0, entries, 0, Position::LIMIT);
    }
}

// The steps from a consistent position that is not full. The walk has one place here, where it is put in whole.
fn make_steps(
    n: usize,
    given: Position,
    places: &mut [u8; Position::LIMIT],
    levels: &mut [Level; LEVELS],
    words: &mut [u64; WORDS],
    replaced: &mut [u64; REPLACED],
    allowance: u32,
    rows: &[u64; TABLE],
    affected: &[Set; AFFECTED],
) -> Outcome
    requires kept { (n ≤ 128) × (given.length < n) × Kept n rows.now given.entries places.old levels.old words.old replaced.old given.length × Affecting n rows.now affected.now }
    requires lengths { (ListN.length given.entries ≡ 128) × (ListN.length places.old ≡ 128) × (ListN.length words.old ≡ 128) }
    ensures { StepsMade n rows.now (position_of given) allowance result }
{
    let mut entries = given.entries;
    let mut reached = given.entries;
    let mut length = given.length;
    let mut steps: u32 = 0;
    // It ends in its middle, behind a walk, so no condition stands here.
    loop {
        // The walk behind the last step only sees whether anything is left.
        let last = steps == allowance;
        keep_if(last, &entries, &mut reached);
        let Some(size) = walk(
            n,
            &mut entries,
            length,
            places,
            levels,
            words,
            replaced,
            rows,
            affected,
        ) else {
            return Outcome {
                verdict: Verdict::Forbidden,
                steps,
                position: given,
            };
        };
        if last {
            return Outcome {
                verdict: Verdict::Unfinished,
                steps,
                position: Position {
                    length,
                    entries: reached,
                },
            };
        }
        steps += 1;
        length = size;
        if length == n {
            return Outcome {
                verdict: Verdict::Allowed,
                steps,
                position: Position { length, entries },
            };
        }
    }
}

// From a position of different operations: what the search comes to, if the position is consistent.
pub fn search_from(
    n: usize,
    given: Position,
    allowance: u32,
    rows: &[u64; TABLE],
    affected: &[Set; AFFECTED],
) -> Option<Outcome>
    requires { (n ≤ 128) × (given.length ≤ n) × (distinct n [] (position_of given) ≡ true) × (ListN.length given.entries ≡ 128) × Affecting n rows.now affected.now }
    ensures { SearchedFrom n rows.now (position_of given) allowance result }
{
    let entries = given.entries;
    let length = given.length;
    let mut places = [ABSENT; Position::LIMIT];
    let mut words = [0u64; WORDS];
    let mut levels = [Level::EMPTY; LEVELS];
    let mut replaced = [0u64; REPLACED];
    first_level(n, rows, &mut levels);
    if !replay(
        n,
        &entries,
        length,
        &mut places,
        &mut levels,
        &mut words,
        &mut replaced,
        rows,
        affected,
    ) {
        return None;
    }
    if length == n {
        return Some(Outcome {
            verdict: Verdict::Allowed,
            steps: 0,
            position: given,
        });
    }
    Some(make_steps(
        n,
        given,
        &mut places,
        &mut levels,
        &mut words,
        &mut replaced,
        allowance,
        rows,
        affected,
    ))
}
