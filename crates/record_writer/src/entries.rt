// The section of instructions, walked entry by entry from its front.
ghost use Rattle.std.specs.Prelude.{◌≡◌, ◌==◌, true, ◌+◌, ◌*◌, ◌≤◌, ◌<◌, length, get_or, drop, count_by};
ghost use Rattle.std.specs.Iterator.{YieldsFirstRef, item_count};
ghost use Rattle.std.specs.List.{list_all};
ghost use Rattle.base.specs.Lists.{for};
ghost use Rattle.model.specs.Sections.{section_entry_length, entries_of, all_whole, question24, program_of};
ghost use Rattle.record_writer.specs.Puts.{Puts};

use record_decoded::kind::{LAST_KIND, is_fence, kind_of};
use record_decoded::types::ENTRY_LENGTH;
use record_programs::more_length;

// An entry has a processor number before what it has in a record.
pub const SHORTEST_ENTRY: usize = 1 + ENTRY_LENGTH;

// Byte k; 0 past the end.
fn byte_at(bytes: &[u8], k: usize) -> u8
    ensures { result ≡ get_or bytes.now k 0 }
{
    bytes.get(k).copied().unwrap_or(0)
}

// The bytes of the entry at the front of a part, by its kind and size.
fn entry_length(part: &[u8]) -> usize
    ensures { (result ≡ section_entry_length part.now) × (12 ≤ result) × (result ≤ 20) }
{
    let k = byte_at(part, 1);
    if LAST_KIND < k {
        return SHORTEST_ENTRY;
    }
    let kind = kind_of(k);
    if is_fence(kind) {
        return SHORTEST_ENTRY;
    }
    SHORTEST_ENTRY + more_length(kind, byte_at(part, 3))
}

// The entries that are left. The last may be shorter than its kind and size want.
#[derive(Drop)]
pub struct Entries<'a> {
    rest: &'a [u8],
}

impl<'a> Iterator for Entries<'a> {
    type Item = &'a [u8];

    ghost next_gives = { YieldsFirstRef (λ s. entries_of s.rest.now) };

    ghost remaining = { item_count (λ s. entries_of s.rest.now) };

    fn next(&mut self) -> Option<&'a [u8]> {
        if self.rest.is_empty() {
            return None;
        }
        let n = entry_length(self.rest).min(self.rest.len());
        let (entry, rest) = self.rest.split_at(n);
        self.rest = rest;
        Some(entry)
    }
}

fn entries_of(part: &[u8]) -> Entries<'_>
    ensures { entries_of result.rest.now ≡ entries_of part.now }
{
    Entries { rest: part }
}

// Whether all entries are whole.
pub fn all_whole(part: &[u8]) -> bool
    ensures { result ≡ all_whole part.now }
{
    // Not `all` over the entries: that finds out how long each is twice, and there may be any number of them before question 5.
    let mut left = part;
    while let Some(rest) = left.get(entry_length(left)..) {
        left = rest;
    }
    left.is_empty()
}

// Question 24.
pub fn all_below(part: &[u8], processors: u8) -> bool
    ensures { result ≡ question24 processors part.now }
{
    entries_of(part).all(|entry| byte_at(entry, 0) < processors)
}

// How many entries processor p has.
pub fn program_length(part: &[u8], p: u8) -> usize
    ensures { result ≡ length (program_of part.now p) }
{
    let mut count = 0;
    for entry in entries_of(part) {
        if byte_at(entry, 0) == p {
            count += 1;
        }
    }
    count
}

// Copies the entries of processor p, without its number, into `out` from index `at` on, and answers where the next byte goes.
pub fn put_entries(out: &mut [u8], at: usize, part: &[u8], p: u8) -> usize
    requires { (all_whole part.now ≡ true) × (at + 19 * length (program_of part.now p) ≤ length out.old) }
    ensures { Puts out.old at (for (program_of part.now p) (drop 1)) out.new result }
{
    let mut next = at;
    for entry in entries_of(part) {
        if byte_at(entry, 0) == p {
            let bytes = entry.len() - 1;
            out[next..next + bytes].copy_from_slice(&entry[1..]);
            next += bytes;
        }
    }
    next
}
