// The walk: from a consistent prefix that is not full to the next one in lexicographic order.
#![tactic(auto)]

ghost use Rattle.std.specs.Prelude.{◌≡◌, ◌+◌, ◌*◌, ◌<◌, ◌≤◌, length, get_or, set, take};
ghost use Rattle.search_admit.specs.Rows.{words_with, replaced_with, words_without};
ghost use Rattle.search_enabled.specs.Affects.{Affecting};
ghost use Rattle.search_walk.specs.Walks.{level_at, NextLevel, Entered, Kept, Walked};

use record_decoded::position::Position;
use record_decoded::types::{OperationNo, wide};
use relation_places::ABSENT;
use search_admit::{REPLACED, TABLE, WORDS, is_refused, unwrite, write};
use search_enabled::{AFFECTED, enabled_after, open_after};
use search_sets::{BOUND, Set};

// The sets of a prefix: the operations that stand, those that are enabled behind them, and those of these that may follow as far as rule 12 goes.
#[derive(Clone, Copy, Debug, PartialEq, Eq)]
pub struct Level {
    pub standing: Set,
    pub enabled: Set,
    pub candidates: Set,
}

impl Level {
    pub const EMPTY: Level = Level {
        standing: Set::EMPTY,
        enabled: Set::EMPTY,
        candidates: Set::EMPTY,
    };
}

// A level for each number of entries.
pub const LEVELS: usize = Position::LIMIT + 1;

// Makes level k + 1 from level k, x being the entry at k.
fn add_level(
    levels: &mut [Level; LEVELS],
    k: usize,
    words: &[u64; WORDS],
    rows: &[u64; TABLE],
    affected: &[Set; AFFECTED],
    x: OperationNo,
)
    requires { (k < 128) × (x.0 < 128) }
    ensures { NextLevel rows.now affected.now words.now x.0 k levels.old levels.new }
{
    let before = levels[k];
    let standing = before.standing.insert(x.0);
    let enabled = enabled_after(rows, affected, words, before.enabled, standing, x);
    let candidates = open_after(rows, enabled, standing, x);
    levels[k + 1] = Level {
        standing,
        enabled,
        candidates,
    };
}

// k as the place of operation x, what x writes, and the sets of the level behind it.
fn add_entry(
    k: usize,
    places: &mut [u8; Position::LIMIT],
    levels: &mut [Level; LEVELS],
    words: &mut [u64; WORDS],
    replaced: &mut [u64; REPLACED],
    rows: &[u64; TABLE],
    affected: &[Set; AFFECTED],
    x: OperationNo,
)
    requires { (k < 128) × (x.0 < 128) }
    ensures { (places.new ≡ set places.old x.0 k) × (words.new ≡ words_with rows.now words.old x.0) × (replaced.new ≡ replaced_with rows.now words.old replaced.old k x.0) × NextLevel rows.now affected.now words.new x.0 k levels.old levels.new }
{
    let o = x.0;
    places[o] = k as u8;
    write(rows, words, replaced, k, x);
    add_level(levels, k, words, rows, affected, x);
}

// Operation x, which is open at level k, at the place k, if it is not refused. The entry itself is the caller's to write.
pub fn enter(
    k: usize,
    places: &mut [u8; Position::LIMIT],
    levels: &mut [Level; LEVELS],
    words: &mut [u64; WORDS],
    replaced: &mut [u64; REPLACED],
    rows: &[u64; TABLE],
    affected: &[Set; AFFECTED],
    x: OperationNo,
) -> bool
    requires { (k < 128) × (x.0 < 128) × (length places.old ≡ 128) × (length words.old ≡ 128) }
    ensures { Entered rows.now affected.now x.0 k result places.old levels.old words.old replaced.old places.new levels.new words.new replaced.new }
{
    if is_refused(rows, places, levels[k].standing, x) {
        return false;
    }
    add_entry(k, places, levels, words, replaced, rows, affected, x);
    true
}

// The operation of the entry at k, which has no place any more; what it wrote is undone.
fn remove_entry(
    position: &[u8],
    k: usize,
    places: &mut [u8],
    words: &mut [u64],
    replaced: &[u64],
    rows: &[u64; TABLE],
) -> OperationNo
    requires { (k < length position.now) × (k < 128) × (2 * k + 1 < length replaced.now) × (get_or position.now k 0 < 128) × (length places.old ≡ 128) × (length words.old ≡ 128) }
    ensures { (result.0 ≡ get_or position.now k 0) × (places.new ≡ set places.old result.0 255) × (words.new ≡ words_without rows.now words.old replaced.now k result.0) }
{
    let last = wide(position[k]);
    places[last] = ABSENT;
    unwrite(rows, words, replaced, k, OperationNo(last));
    OperationNo(last)
}

// From the first `size` entries of the position. `levels` has the sets of its first j entries as level j, `places` the places of all entries, `words`
// what they wrote, and `replaced` the words that each wrote over. The next candidate is the lowest that is open, and not refused. The answer is the length of the
// next consistent prefix, or that there is none.
pub fn walk(
    n: usize,
    position: &mut [u8; Position::LIMIT],
    size: usize,
    places: &mut [u8; Position::LIMIT],
    levels: &mut [Level; LEVELS],
    words: &mut [u64; WORDS],
    replaced: &mut [u64; REPLACED],
    rows: &[u64; TABLE],
    affected: &[Set; AFFECTED],
) -> Option<usize>
    requires kept { (n ≤ 128) × (size < n) × Kept n rows.now position.old places.old levels.old words.old replaced.old size × Affecting n rows.now affected.now }
    requires lengths { (length position.old ≡ 128) × (length places.old ≡ 128) × (length words.old ≡ 128) }
    ensures { Walked n rows.now (take size position.old) result position.new places.new levels.new words.new replaced.new }
{
    let mut k = size;
    let mut c = 0;
    let mut candidates = levels[k].candidates;
    // No walk takes more turns.
    for _ in 0..n * n {
        // Not `match` on the Option: that proves too, but a step of the longest table then took 4 to 5 % longer.
        let x = candidates.first_from(c).unwrap_or(BOUND);
        if x < n {
            let o = OperationNo(x);
            if enter(k, places, levels, words, replaced, rows, affected, o) {
                position[k] = x as u8;
                return Some(k + 1);
            }
            c = x + 1;
        } else {
            if k == 0 {
                return None;
            }
            k -= 1;
            let removed = remove_entry(position, k, places, words, replaced, rows);
            c = removed.0 + 1;
            candidates = levels[k].candidates;
        }
    }
    None
}
