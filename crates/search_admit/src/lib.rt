// The tests of one operation more behind a consistent prefix, on compiled rows.
#![tactic(auto)]

ghost use Rattle.std.specs.Prelude.{◌≡◌, not, cond, ◌&&◌, ◌||◌, ℕ, ◌+◌, ◌*◌, ◌%◌, ◌<◌, ◌≤◌, length, get_or, set, ltb};
ghost use Rattle.base.specs.Below.{all_below, any_below};
ghost use Rattle.base.specs.Bits.{bit};
ghost use Rattle.search_sets.specs.Set.{holds};
ghost use Rattle.search_admit.specs.Rows.{row_length, field, written_word, visible_word, words_read, local_of, writes_bit, word_over, words_with, replaced_with, words_without};
ghost use Rattle.search_admit.specs.Fits.{both_or_neither, waits_for, refused, local_bit, bit_agrees, reads_recorded, enabled};

use record_decoded::position::Position;
use record_decoded::types::OperationNo;
use relation_places::before;
use search_sets::Set;

// The words of a row, in their order: what is read of an operation as it is entered, then what is read where it is asked whether it is enabled. Each is mostly one
// line of the processor's cache.
pub const AWAITED: usize = 0;

pub const PARTNERS: usize = 2;

// An access has two words of memory, of its line and of the next: bits and data are two words each.
pub const WRITTEN_WORD: usize = 4;

pub const WRITTEN_BITS: usize = 5;

pub const WRITTEN_DATA: usize = 7;

pub const PREDS: usize = 9;

pub const BYPASSES: usize = 11;

pub const VISIBLE_WORD: usize = 13;

pub const READ_BITS: usize = 14;

pub const READ_DATA: usize = 16;

pub const OWN: usize = 18;

pub const LOCAL: usize = 19;

pub const READ: usize = 20;

// The words of a row, those of all rows, and the words of memory.
pub const ROW: usize = 21;

pub const TABLE: usize = ROW * Position::LIMIT;

pub const WORDS: usize = 128;

// The words that the entries of a position wrote over, two for each.
pub const REPLACED: usize = 2 * Position::LIMIT;

// Word f of the row of operation x.
pub fn field_of(rows: &[u64; TABLE], x: OperationNo, f: usize) -> u64
    requires { (x.0 < 128) × (f < row_length) }
    ensures { result ≡ field rows.now f x.0 }
{
    let at = x.0;
    rows[ROW * at + f]
}

// The word of memory h places, 0 or 1, after the one in word f of the row of operation x.
pub fn word_of(rows: &[u64; TABLE], x: OperationNo, f: usize, h: usize) -> usize
    requires { (x.0 < 128) × (f < row_length) × (h < 2) }
    ensures { (result ≡ (field rows.now f x.0 + h) % 128) × (result < 128) }
{
    let first = (field_of(rows, x, f) % WORDS as u64) as usize;
    (first + h) % WORDS
}

// The word of memory for what a processor's own stores wrote, by that for what is visible to it.
fn own_of(visible: usize) -> usize
    requires { visible < 128 }
    ensures { (result ≡ (visible + 64) % 128) × (result < 128) }
{
    (visible + WORDS / 2) % WORDS
}

// The set in words f and f + 1 of the row of operation x.
pub fn set_of(rows: &[u64; TABLE], x: OperationNo, f: usize) -> Set
    requires { (x.0 < 128) × (f < 16) }
    ensures { (result.lo ≡ field rows.now f x.0) × (result.hi ≡ field rows.now (f + 1) x.0) }
{
    let at = x.0;
    let lo = rows[ROW * at + f];
    let hi = rows[ROW * at + (f + 1)];
    Set { lo, hi }
}

// Whether operation x must wait for operation m; neither stands.
fn waits_for(
    rows: &[u64; TABLE],
    places: &[u8; Position::LIMIT],
    x: OperationNo,
    m: OperationNo,
) -> bool
    requires { (x.0 < 128) × (m.0 < 128) }
    ensures { result ≡ waits_for rows.now places.now x.0 m.0 }
{
    let own_m = field_of(rows, m, OWN) as usize;
    let own_x = field_of(rows, x, OWN) as usize;
    if before(places, OperationNo(own_m), OperationNo(own_x)) {
        return true;
    }
    if own_m != m.0 {
        return false;
    }
    let read_m = field_of(rows, m, READ) as usize;
    if before(places, OperationNo(read_m), x) {
        return true;
    }
    if own_x != x.0 {
        return false;
    }
    let local_m = field_of(rows, m, LOCAL) as usize;
    let local_x = field_of(rows, x, LOCAL) as usize;
    before(places, OperationNo(local_m), OperationNo(local_x))
}

// Whether operation x must wait for one of those that are missing.
fn waits_for_any(
    rows: &[u64; TABLE],
    places: &[u8; Position::LIMIT],
    missing: Set,
    x: OperationNo,
) -> bool
    requires { x.0 < 128 }
    ensures { result ≡ any_below 128 (λ (m : ℕ). holds missing.lo missing.hi m && waits_for rows.now places.now x.0 m) }
{
    for m in missing.members() {
        if waits_for(rows, places, x, OperationNo(m)) {
            return true;
        }
    }
    false
}

// Rules 9, 10, 14 and 16: whether operation x must wait for an operation that does not stand. Mostly none is missing, so that is asked first.
pub fn is_refused(
    rows: &[u64; TABLE],
    places: &[u8; Position::LIMIT],
    stand: Set,
    x: OperationNo,
) -> bool
    requires { x.0 < 128 }
    ensures { result ≡ refused rows.now places.now stand.lo stand.hi x.0 }
{
    let awaited = set_of(rows, x, AWAITED);
    if awaited.is_subset(stand) {
        return false;
    }
    waits_for_any(rows, places, awaited - stand, x)
}

// The bits that operation m writes to a word of memory.
fn bits_at(rows: &[u64; TABLE], m: OperationNo, word: usize) -> u64
    requires { m.0 < 128 }
    ensures { (i : ℕ) → bit result i ≡ writes_bit rows.now word m.0 i }
{
    if word_of(rows, m, WRITTEN_WORD, 0) == word {
        return field_of(rows, m, WRITTEN_BITS);
    }
    if word_of(rows, m, WRITTEN_WORD, 1) == word {
        return field_of(rows, m, WRITTEN_BITS + 1);
    }
    0
}

// The bits that the store of m wrote to a word of memory, where its LV stands.
fn bits_of(rows: &[u64; TABLE], stand: Set, m: OperationNo, word: usize) -> u64
    requires { m.0 < 128 }
    ensures { (i : ℕ) → bit result i ≡ (ltb (local_of rows.now m.0) 128 && holds stand.lo stand.hi (local_of rows.now m.0) && writes_bit rows.now word m.0 i) }
{
    let local = field_of(rows, m, LOCAL) as usize;
    if local >= Position::LIMIT {
        return 0;
    }
    if !stand.has(local) {
        return 0;
    }
    bits_at(rows, m, word)
}

// The bits that those of the missing stores wrote to a word of memory whose LVs stand.
fn pending_bits(rows: &[u64; TABLE], stand: Set, missing: Set, word: usize) -> u64
    ensures { (i : ℕ) → bit result i ≡ any_below 128 (λ (m : ℕ). holds missing.lo missing.hi m && (ltb (local_of rows.now m) 128 && holds stand.lo stand.hi (local_of rows.now m) && writes_bit rows.now word m i)) }
{
    let mut bits = 0;
    for m in missing.members() {
        bits |= bits_of(rows, stand, OperationNo(m), word);
    }
    bits
}

// The bits that the R x reads from what its own processor wrote, of its word h, which is `visible`.
fn local_bits(rows: &[u64; TABLE], stand: Set, x: OperationNo, h: usize, visible: usize) -> u64
    requires { (x.0 < 128) × (visible ≡ visible_word rows.now h x.0) }
    ensures { (i : ℕ) → bit result i ≡ local_bit rows.now stand.lo stand.hi h x.0 i }
{
    let stores = set_of(rows, x, BYPASSES);
    pending_bits(rows, stand, stores - stand, visible)
}

// Whether what is seen, of `own` where `local` is set and of `visible` elsewhere, is `data` in some bits.
fn agrees(own: u64, visible: u64, local: u64, data: u64, bits: u64) -> bool
    ensures { result ≡ all_below 64 (λ (i : ℕ). not (bit bits i) || both_or_neither (cond (bit local i) (bit own i) (bit visible i)) (bit «data» i)) }
{
    let seen = (own & local) | (visible ^ (visible & local));
    (seen ^ data) & bits == 0
}

// How many words of memory operation x reads.
pub fn words_read(rows: &[u64; TABLE], x: OperationNo) -> usize
    requires { x.0 < 128 }
    ensures { (result ≡ words_read rows.now x.0) × (result ≤ 2) }
{
    if field_of(rows, x, READ_BITS) == 0 {
        return 0;
    }
    if field_of(rows, x, READ_BITS + 1) == 0 {
        return 1;
    }
    2
}

// Rule 11 for one word of memory: whether operation x reads what is recorded of its word h, by which word is visible to its processor and which bits it reads
// from what that wrote.
fn reads_word(
    rows: &[u64; TABLE],
    words: &[u64; WORDS],
    x: OperationNo,
    h: usize,
    visible: usize,
    local: u64,
) -> bool
    requires { (x.0 < 128) × (h < 2) × (visible < 128) × (visible ≡ visible_word rows.now h x.0) }
    ensures { result ≡ all_below 64 (bit_agrees rows.now words.now local h x.0) }
{
    let own = own_of(visible);
    let bits = field_of(rows, x, READ_BITS + h);
    let data = field_of(rows, x, READ_DATA + h);
    agrees(words[own], words[visible], local, data, bits)
}

// Rule 11: whether operation x reads what is recorded, one word after the other.
fn reads_words(rows: &[u64; TABLE], words: &[u64; WORDS], stand: Set, x: OperationNo) -> bool
    requires { x.0 < 128 }
    ensures { result ≡ reads_recorded rows.now stand.lo stand.hi words.now x.0 }
{
    let n = words_read(rows, x);
    for h in 0..n {
        let visible = word_of(rows, x, VISIBLE_WORD, h);
        let local = local_bits(rows, stand, x, h, visible);
        if !reads_word(rows, words, x, h, visible, local) {
            return false;
        }
    }
    true
}

// Rule 11: whether operation x reads what is recorded. Mostly it reads one word and no store of its processor is missing, so that is asked first. (Of a
// semaphore's R its own store always is.)
fn reads_right(rows: &[u64; TABLE], words: &[u64; WORDS], stand: Set, x: OperationNo) -> bool
    requires { x.0 < 128 }
    ensures { result ≡ reads_recorded rows.now stand.lo stand.hi words.now x.0 }
{
    if field_of(rows, x, READ_BITS) == 0 {
        return true;
    }
    if field_of(rows, x, READ_BITS + 1) == 0 {
        if set_of(rows, x, BYPASSES).is_subset(stand) {
            let visible = word_of(rows, x, VISIBLE_WORD, 0);
            return reads_word(rows, words, x, 0, visible, 0);
        }
    }
    reads_words(rows, words, stand, x)
}

// Whether what must stand before operation x stands, and x reads what is recorded: `stand` has the operations that stand, `words` what they wrote.
pub fn is_enabled(rows: &[u64; TABLE], words: &[u64; WORDS], stand: Set, x: OperationNo) -> bool
    requires { x.0 < 128 }
    ensures { result ≡ enabled rows.now stand.lo stand.hi words.now x.0 }
{
    if !set_of(rows, x, PREDS).is_subset(stand) {
        return false;
    }
    reads_right(rows, words, stand, x)
}

// Whether operation x is enabled before any operation stands: nothing must stand before it, and it reads what is recorded. Not as `is_enabled` at the empty set:
// that proves too, but a step of the longest table then took 4 % longer.
pub fn is_enabled_first(rows: &[u64; TABLE], words: &[u64; WORDS], x: OperationNo) -> bool
    requires { x.0 < 128 }
    ensures { result ≡ enabled rows.now 0 0 words.now x.0 }
{
    let none = Set::EMPTY;
    if !set_of(rows, x, PREDS).is_subset(none) {
        return false;
    }
    reads_words(rows, words, none, x)
}

// Writes operation x's word h, and answers with what was there.
fn write_word(rows: &[u64; TABLE], words: &mut [u64], x: OperationNo, h: usize) -> u64
    requires { (x.0 < 128) × (h < 2) × (length words.old ≡ 128) }
    ensures { (result ≡ get_or words.old (written_word rows.now h x.0) 0) × (words.new ≡ word_over rows.now words.old x.0 h) }
{
    let at = word_of(rows, x, WRITTEN_WORD, h);
    let old = words[at];
    let kept = old ^ (old & field_of(rows, x, WRITTEN_BITS + h));
    words[at] = kept | field_of(rows, x, WRITTEN_DATA + h);
    old
}

// Writes what operation x writes, and keeps what was there as that of entry k.
pub fn write(rows: &[u64; TABLE], words: &mut [u64], replaced: &mut [u64], k: usize, x: OperationNo)
    requires { (x.0 < 128) × (k < 128) × (length words.old ≡ 128) × (length replaced.old ≡ 256) }
    ensures { (words.new ≡ words_with rows.now words.old x.0) × (replaced.new ≡ replaced_with rows.now words.old replaced.old k x.0) }
{
    replaced[2 * k] = write_word(rows, words, x, 0);
    if field_of(rows, x, WRITTEN_BITS + 1) != 0 {
        replaced[2 * k + 1] = write_word(rows, words, x, 1);
    }
}

// Puts back what operation x wrote over, as entry k, in its word h.
fn put_back(
    rows: &[u64; TABLE],
    words: &mut [u64],
    replaced: &[u64],
    k: usize,
    x: OperationNo,
    h: usize,
)
    requires { (x.0 < 128) × (h < 2) × (k < 128) × (2 * k + h < length replaced.now) × (length words.old ≡ 128) }
    ensures { words.new ≡ set words.old (written_word rows.now h x.0) (get_or replaced.now (2 * k + h) 0) }
{
    let at = word_of(rows, x, WRITTEN_WORD, h);
    words[at] = replaced[2 * k + h];
}

// Puts back all that it wrote over, the last word first.
pub fn unwrite(rows: &[u64; TABLE], words: &mut [u64], replaced: &[u64], k: usize, x: OperationNo)
    requires { (x.0 < 128) × (k < 128) × (2 * k + 1 < length replaced.now) × (length words.old ≡ 128) }
    ensures { words.new ≡ words_without rows.now words.old replaced.now k x.0 }
{
    if field_of(rows, x, WRITTEN_BITS + 1) == 0 {
        put_back(rows, words, replaced, k, x, 0);
    } else {
        put_back(rows, words, replaced, k, x, 1);
        put_back(rows, words, replaced, k, x, 0);
    }
}
