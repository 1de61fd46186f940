// Marks of two instructions, packed into one number; the table of the program-order rules.
ghost use Rattle.std.specs.Prelude.{◌≡◌, ◌-◌, ◌<◌, ◌≤◌, length, ltb};
ghost use Rattle.base.specs.Lists.{count};
ghost use Rattle.record_decoded.specs.Kinds.{meant};
ghost use Rattle.relation_marks.specs.Marks.{program_marks, shared_by, has_mark};

use record_decoded::kind::{Kind, table_column, table_row};
use record_decoded::types::wide;
use std::ops::Range;

// The marks, as bits: a cell of the table of the program-order rules adds two of them, and a link asks for any of several by one `&`. They are: one instruction;
// rules 2, 3 and 4 by the kinds; a shared byte; a dependence pair; UC memory of one domain; conflicting stores; a UC store and an overlapping load of its
// processor; one release to WB; a semaphore and another overlapping store; the first is a semaphore; the second is one.
pub const SAME: u16 = 1;

pub const ACQUIRE: u16 = 2;

pub const RELEASE: u16 = 4;

pub const FENCE: u16 = 8;

pub const OVERLAP: u16 = 16;

pub const PAIR: u16 = 32;

pub const DOMAIN: u16 = 64;

pub const CONFLICT: u16 = 128;

pub const BYPASS: u16 = 256;

pub const ATOMIC: u16 = 512;

pub const SEMAPHORE: u16 = 1024;

pub const FIRST_SEMAPHORE: u16 = 2048;

pub const SECOND_SEMAPHORE: u16 = 4096;

// The marks that some link asks for, and those that a link to an RV asks for.
pub const LINK_MARKS: u16 = SAME + ACQUIRE + RELEASE + FENCE + OVERLAP + PAIR + DOMAIN;

pub const REMOTE_LINK_MARKS: u16 = SAME + ACQUIRE + RELEASE + FENCE;

// The program-order rules, earlier kind by row, later kind by column.
const PROGRAM_ORDER: [[u16; 5]; 5] = [
    [0, 0, 0, RELEASE, FENCE],
    [
        ACQUIRE,
        ACQUIRE,
        ACQUIRE,
        ACQUIRE + RELEASE,
        ACQUIRE + FENCE,
    ],
    [0, 0, 0, RELEASE, FENCE],
    [0, 0, 0, RELEASE, FENCE],
    [FENCE, FENCE, FENCE, FENCE, FENCE],
];

// The marks of rules 2, 3 and 4 for an earlier and a later kind.
pub fn program_marks(earlier: Kind, later: Kind) -> u16
    ensures { (result ≡ program_marks (meant earlier) (meant later)) × (result ≤ 14) }
{
    let row = table_row(earlier);
    let column = table_column(later);
    PROGRAM_ORDER[row][column]
}

// The bytes that two accesses share, by their addresses, each access by its address and size: none where the end is not above the start.
fn shared_bytes(address: u8, size: u8, other: u8, extent: u8) -> Range<usize>
    ensures { shared_by address size other extent ≡ count result.start (result.end - result.start) }
{
    let start = address.max(other);
    let end = (wide(address) + wide(size)).min(wide(other) + wide(extent));
    wide(start)..end
}

// Whether two accesses overlap: whether they share a byte.
pub fn overlaps(address: u8, size: u8, other: u8, extent: u8) -> bool
    ensures { result ≡ ltb 0 (length (shared_by address size other extent)) }
{
    let shared = shared_bytes(address, size, other, extent);
    shared.start < shared.end
}

// Whether a mark is among those packed.
pub fn has_mark(marks: u16, mark: u16) -> bool
    requires { 0 < mark }
    ensures { result ≡ has_mark marks mark }
{
    marks / mark % 2 == 1
}
