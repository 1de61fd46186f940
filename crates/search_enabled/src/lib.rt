// The operations that are enabled behind a prefix, kept up entry by entry.
#![tactic(auto)]

ghost use Rattle.std.specs.Prelude.{◌≡◌, true, ◌&&◌, ◌||◌, ℕ, ◌%◌, ◌<◌, ◌≤◌, eqb};
ghost use Rattle.base.specs.Below.{any_below};
ghost use Rattle.search_sets.specs.Set.{holds};
ghost use Rattle.search_sets.specs.Tables.{set_at};
ghost use Rattle.search_admit.specs.Rows.{visible_word, local_of, first_words};
ghost use Rattle.search_admit.specs.Fits.{enabled, due_after};
ghost use Rattle.search_enabled.specs.Affects.{reads, writes_at, Writing, affects, Affecting, enabled_after};

use record_decoded::position::Position;
use record_decoded::types::OperationNo;
use search_admit::{
    BYPASSES, LOCAL, PARTNERS, PREDS, TABLE, VISIBLE_WORD, WORDS, WRITTEN_BITS, WRITTEN_WORD,
    field_of, is_enabled, is_enabled_first, set_of, word_of, words_read,
};
use search_sets::Set;

// A set for each operation.
pub const AFFECTED: usize = Position::LIMIT;

// A set for each line as a processor sees it: there are half as many of these as words of memory.
const WRITERS: usize = WORDS / 2;

// A set, with the LVs of stores that are given by their own RVs.
fn with_locals(set: Set, rows: &[u64; TABLE], stores: Set) -> Set
    ensures { (a : ℕ) → a < 128 → holds result.lo result.hi a ≡ (holds set.lo set.hi a || any_below 128 (λ (m : ℕ). holds stores.lo stores.hi m && eqb (local_of rows.now m) a)) }
{
    let mut all = set;
    for m in stores.members() {
        let local = field_of(rows, OperationNo(m), LOCAL) as usize;
        all = all.insert_if(local, true);
    }
    all
}

// Puts operation a into the set of the line and processor that a word of memory is for: of the word that is visible there, and 64 places on of the own stores'.
fn put_writer(writers: &mut [Set; WRITERS], word: usize, a: OperationNo)
    requires { (word < 128) × (a.0 < 128) }
    ensures { (p k : ℕ) → set_at writers.new p k ≡ (set_at writers.old p k || (eqb p (word % 64) && eqb k a.0)) }
{
    let place = word % WRITERS;
    writers[place] = writers[place].insert(a.0);
}

// Puts operation a into the sets of the words that it writes.
fn put_written(writers: &mut [Set; WRITERS], rows: &[u64; TABLE], a: OperationNo)
    requires { a.0 < 128 }
    ensures { (p k : ℕ) → set_at writers.new p k ≡ (set_at writers.old p k || (writes_at rows.now a.0 p && eqb k a.0)) }
{
    put_writer(writers, word_of(rows, a, WRITTEN_WORD, 0), a);
    if field_of(rows, a, WRITTEN_BITS + 1) != 0 {
        put_writer(writers, word_of(rows, a, WRITTEN_WORD, 1), a);
    }
}

// For each line and processor the operations of n that write its words.
fn all_writers(n: usize, rows: &[u64; TABLE]) -> [Set; WRITERS]
    requires { n ≤ 128 }
    ensures { Writing n rows.now result }
{
    let mut writers = [Set::EMPTY; WRITERS];
    for a in 0..n {
        put_written(&mut writers, rows, OperationNo(a));
    }
    writers
}

// Whether one of n operations reads.
fn any_reads(n: usize, rows: &[u64; TABLE]) -> bool
    requires { n ≤ 128 }
    ensures { result ≡ any_below n (λ (y : ℕ). reads rows.now y) }
{
    (0..n).any(|y| words_read(rows, OperationNo(y)) != 0)
}

// These sets, if one of n operations reads: for no other are they asked for.
fn writers_for_reads(n: usize, rows: &[u64; TABLE]) -> [Set; WRITERS]
    requires { n ≤ 128 }
    ensures { (y : ℕ) → y < n → reads rows.now y ≡ true → Writing n rows.now result }
{
    if any_reads(n, rows) {
        all_writers(n, rows)
    } else {
        [Set::EMPTY; WRITERS]
    }
}

// A set, with the operations that write one of the `count` words that the R y reads.
fn with_writers(
    set: Set,
    rows: &[u64; TABLE],
    writers: &[Set; WRITERS],
    y: OperationNo,
    count: usize,
) -> Set
    requires { (y.0 < 128) × (count ≤ 2) }
    ensures { (a : ℕ) → holds result.lo result.hi a ≡ (holds set.lo set.hi a || any_below count (λ (h : ℕ). set_at writers.now (visible_word rows.now h y.0 % 64) a)) }
{
    let mut all = set;
    for h in 0..count {
        let place = word_of(rows, y, VISIBLE_WORD, h) % WRITERS;
        all = all | writers[place];
    }
    all
}

// The operations that may change whether y is enabled, of as many as `writers` has.
fn all_affecting(rows: &[u64; TABLE], writers: &[Set; WRITERS], y: OperationNo) -> Set
    requires { y.0 < 128 }
    ensures { (n a : ℕ) → n ≤ 128 → a < n → (reads rows.now y.0 ≡ true → Writing n rows.now writers.now) → holds result.lo result.hi a ≡ affects rows.now a y.0 }
{
    let preds = set_of(rows, y, PREDS);
    let count = words_read(rows, y);
    if count == 0 {
        return preds;
    }
    let stores = set_of(rows, y, BYPASSES);
    let read = with_locals(stores, rows, stores);
    preds | with_writers(read, rows, writers, y, count)
}

// Puts y into the sets of those that affect it.
fn put_affected(affected: &mut [Set; AFFECTED], affecting: Set, y: OperationNo)
    requires { y.0 < 128 }
    ensures { (a k : ℕ) → a < 128 → set_at affected.new a k ≡ (set_at affected.old a k || (holds affecting.lo affecting.hi a && eqb k y.0)) }
{
    for a in affecting.members() {
        affected[a] = affected[a].insert(y.0);
    }
}

// For each operation those that it affects.
pub fn affected_by(n: usize, rows: &[u64; TABLE]) -> [Set; AFFECTED]
    requires { n ≤ 128 }
    ensures { Affecting n rows.now result }
{
    let writers = writers_for_reads(n, rows);
    let mut affected = [Set::EMPTY; AFFECTED];
    for y in 0..n {
        let affecting = all_affecting(rows, &writers, OperationNo(y));
        put_affected(&mut affected, affecting, OperationNo(y));
    }
    affected
}

// The operations of n that are enabled before any stands.
pub fn first_enabled(n: usize, rows: &[u64; TABLE]) -> Set
    requires { n ≤ 128 }
    ensures { (y : ℕ) → y < n → holds result.lo result.hi y ≡ enabled rows.now 0 0 first_words y }
{
    let words = [0u64; WORDS];
    let mut all = Set::EMPTY;
    for y in 0..n {
        let now = is_enabled_first(rows, &words, OperationNo(y));
        all = all.insert_if(y, now);
    }
    all
}

// Those that are enabled behind x, the last that stands, by those that were before.
pub fn enabled_after(
    rows: &[u64; TABLE],
    affected: &[Set; AFFECTED],
    words: &[u64; WORDS],
    before: Set,
    stand: Set,
    x: OperationNo,
) -> Set
    requires { x.0 < 128 }
    ensures { (y : ℕ) → y < 128 → holds result.lo result.hi y ≡ enabled_after rows.now affected.now words.now before.lo before.hi stand.lo stand.hi x.0 y }
{
    let changed = affected[x.0];
    let kept = before - changed - stand;
    if changed.is_subset(stand) {
        return kept;
    }
    let again = changed - stand;
    let mut all = kept;
    for y in again.members() {
        let now = is_enabled(rows, words, stand, OperationNo(y));
        all = all.insert_if(y, now);
    }
    all
}

// Those of them that may follow x as far as rule 12 goes. Mostly x has no partners, so that is asked first.
pub fn open_after(rows: &[u64; TABLE], set: Set, stand: Set, x: OperationNo) -> Set
    requires { x.0 < 128 }
    ensures { (y : ℕ) → holds result.lo result.hi y ≡ (due_after rows.now x.0 stand.lo stand.hi y && holds set.lo set.hi y) }
{
    let partners = set_of(rows, x, PARTNERS);
    if partners.is_subset(Set::EMPTY) {
        return set;
    }
    if partners.is_subset(stand) {
        set
    } else {
        partners & set
    }
}
