// Two times three words for each instruction, of its line and of the next: the bits of its bytes there, and what it saw and what it wrote, relative to the initial
// bytes. Of an access that stays in its line those of the next are 0.
ghost use Rattle.std.specs.Prelude.{◌≡◌, ℕ, ◌+◌, ◌*◌, ◌-◌, ◌%◌, ◌<◌, ◌≤◌, length};
ghost use Rattle.base.specs.Bits.{bit};
ghost use Rattle.model.specs.Questions.{written_from};
ghost use Rattle.record_decoded.specs.Kinds.{meant};
ghost use Rattle.search_rows.specs.Lent.{InLines, CoveredBits, RelativeValues, covered_bit, relative_bit, InWord};

use crate::line::{bits_from, relative_from};
use record_decoded::kind::{Kind, is_semaphore, kind_of, written_from};
use record_decoded::types::{DATA_STRIDE, Execution, InstructionNo, MOST_INSTRUCTIONS, wide};

pub const ACCESS_WORDS: usize = 2 * MOST_INSTRUCTIONS;

// Three words of one line.
#[derive(Clone, Copy)]
pub struct LineWords {
    pub bits: u64,
    pub seen: u64,
    pub written: u64,
}

// So many bytes of a word, from one on.
#[derive(Clone, Copy)]
pub struct Span {
    pub first: usize,
    pub count: usize,
}

// By how much a is above b.
fn above(a: usize, b: usize) -> usize
    ensures { result ≡ a - b }
{
    if a < b { 0 } else { a - b }
}

// Of so many bytes from a place of a line on, those in word h of the line and the next.
fn span_in(place: usize, size: usize, h: usize) -> Span
    requires { (place < 8) × (place + size ≤ 16) × (h < 2) }
    ensures { InWord place size h result.first result.count }
{
    let start = 8 * h;
    let first = above(place, start);
    let end = place + size;
    let left = above(end, start);
    if left < 8 {
        let count = above(left, first);
        Span { first, count }
    } else {
        let count = 8 - first;
        Span { first, count }
    }
}

// The value written: for a semaphore its second one, for the others the same bytes as `seen`, which are made already. `skipped` data bytes lie in the line before.
fn written_value(
    bytes: &[u8],
    count: usize,
    data: &[u8; DATA_STRIDE * MOST_INSTRUCTIONS],
    w: InstructionNo,
    kind: Kind,
    skipped: usize,
    address: usize,
    size: usize,
    seen: u64,
) -> u64
    requires bounds { (count ≤ 8) × (w.0 < 40) × (address < 512) × (address % 8 + size ≤ 8) × (written_from (meant kind) + skipped + size ≤ 16) }
    requires seen_is { (i : ℕ) → i < 64 → bit seen i ≡ relative_bit bytes.now count «data».now (16 * w.0 + (0 + skipped)) address size i }
    ensures { (i : ℕ) → i < 64 → bit result i ≡ relative_bit bytes.now count «data».now (16 * w.0 + (written_from (meant kind) + skipped)) address size i }
{
    if is_semaphore(kind) {
        let from = written_from(kind) + skipped;
        relative_from(bytes, count, data, w, from, address, size)
    } else {
        seen
    }
}

// The words of one instruction, of its line or (h = 1) of the next.
fn line_words(
    bytes: &[u8],
    count: usize,
    data: &[u8; DATA_STRIDE * MOST_INSTRUCTIONS],
    w: InstructionNo,
    kind: Kind,
    address: usize,
    size: usize,
    h: usize,
) -> LineWords
    requires { (count ≤ 8) × (w.0 < 40) × (address < 256) × (address % 8 + size ≤ 16) × (written_from (meant kind) + size ≤ 16) × (h < 2) }
    ensures { ((i : ℕ) → i < 64 → bit result.bits i ≡ covered_bit address size (64 * h + i)) × ((i : ℕ) → i < 64 → bit result.seen i ≡ relative_bit bytes.now count «data».now (16 * w.0 + 0) address size (64 * h + i)) × ((i : ℕ) → i < 64 → bit result.written i ≡ relative_bit bytes.now count «data».now (16 * w.0 + written_from (meant kind)) address size (64 * h + i)) }
{
    let place = address % 8;
    let span = span_in(place, size, h);
    let first = span.first;
    let n = span.count;
    let skipped = 8 * h + first - place;
    let here = address + skipped;
    let bits = bits_from(first, n);
    let seen = relative_from(bytes, count, data, w, skipped, here, n);
    let written = written_value(bytes, count, data, w, kind, skipped, here, n, seen);
    LineWords {
        bits,
        seen,
        written,
    }
}

// Puts in the words of each instruction.
pub fn put_words(
    bytes: &[u8],
    x: Execution,
    bits: &mut [u64],
    seen: &mut [u64],
    written: &mut [u64],
)
    requires bounds { (x.instructions.count ≤ 40) × (x.lines.count ≤ 8) × ((w : ℕ) → w < x.instructions.count → InLines x.instructions w) }
    requires lengths { (length bits.old ≡ 80) × (length seen.old ≡ 80) × (length written.old ≡ 80) }
    ensures { CoveredBits x bits.new × RelativeValues bytes.now x seen.new written.new }
{
    let lines = x.lines;
    let count = lines.count;
    let is = x.instructions;
    let n = is.count;
    let kinds = is.kinds;
    let addresses = is.addresses;
    let sizes = is.sizes;
    let data = is.bytes;
    let all = 2 * n;
    for j in 0..all {
        let w = j / 2;
        let kind = kind_of(kinds[w]);
        let address = wide(addresses[w]);
        let size = wide(sizes[w]);
        let words = line_words(
            bytes,
            count,
            &data,
            InstructionNo(w),
            kind,
            address,
            size,
            j % 2,
        );
        bits[j] = words.bits;
        seen[j] = words.seen;
        written[j] = words.written;
    }
}
