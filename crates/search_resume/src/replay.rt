// What is kept of a position while it is walked from, made entry by entry; question 21 on the way.
ghost use Rattle.std.specs.Prelude.{◌≡◌, true, List, [], ℕ, ◌≤◌, length, take};
ghost use Rattle.base.specs.Lists.{distinct};
ghost use Rattle.search_enabled.specs.Affects.{Affecting};
ghost use Rattle.search_walk.specs.Walks.{Levels, Kept};
ghost use Rattle.search_resume.specs.Replays.{Replayed};

use record_decoded::position::Position;
use record_decoded::types::{OperationNo, wide};
use search_admit::{REPLACED, TABLE, WORDS};
use search_enabled::{AFFECTED, first_enabled};
use search_sets::Set;
use search_walk::{LEVELS, Level, enter};

// The sets before any operation, as level 0.
pub fn first_level(n: usize, rows: &[u64; TABLE], levels: &mut [Level; LEVELS])
    requires { n ≤ 128 }
    ensures { (position : List ℕ) → Levels n rows.now position levels.new 0 }
{
    let enabled = first_enabled(n, rows);
    levels[0] = Level {
        standing: Set::EMPTY,
        enabled,
        candidates: enabled,
    };
}

// Whether the first `size` entries, which differ, pass the tests; if so, their places, sets and words are made.
pub fn replay(
    n: usize,
    entries: &[u8; Position::LIMIT],
    size: usize,
    places: &mut [u8; Position::LIMIT],
    levels: &mut [Level; LEVELS],
    words: &mut [u64; WORDS],
    replaced: &mut [u64; REPLACED],
    rows: &[u64; TABLE],
    affected: &[Set; AFFECTED],
) -> bool
    requires kept { (n ≤ 128) × (size ≤ n) × (distinct n [] (take size entries.now) ≡ true) × Kept n rows.now entries.now places.old levels.old words.old replaced.old 0 × Affecting n rows.now affected.now }
    requires lengths { (length entries.now ≡ 128) × (length places.old ≡ 128) × (length words.old ≡ 128) }
    ensures { Replayed n rows.now size entries.now result places.new levels.new words.new replaced.new }
{
    // Not `all`: a turn also enters what it asks.
    for j in 0..size {
        let x = wide(entries[j]);
        if !levels[j].candidates.has(x) {
            return false;
        }
        let o = OperationNo(x);
        if !enter(j, places, levels, words, replaced, rows, affected, o) {
            return false;
        }
    }
    true
}
