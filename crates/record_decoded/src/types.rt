// The decoded execution as flat arrays of numbers.
ghost use Rattle.std.specs.Prelude.{◌≡◌, ◌+◌, ◌<◌, ◌≤◌, length, drop};
ghost use Rattle.std.proofs.Math.Seq.{paste};

// The bytes of a line, of an instruction and of a pair in the record.
pub const LINE_LENGTH: usize = 9;

pub const ENTRY_LENGTH: usize = 11;

// The data bytes of one value. Behind them the entry of a semaphore has those of a second one, the value written, and that of an access of WIDE_SIZE those of
// the upper half.
pub const VALUE_LENGTH: usize = 8;

pub const WIDE_SIZE: u8 = 16;

pub const PAIR_LENGTH: usize = 2;

// The most processors, lines, instructions and pairs of a record. (The most operations: `Position::LIMIT`.)
pub const MOST_PROCESSORS: u8 = 8;

pub const MOST_LINES: u8 = 8;

pub const MOST_INSTRUCTIONS: usize = 40;

pub const MOST_PAIRS: u8 = 40;

// The data bytes of an instruction in the arrays: those seen or written, of an access of WIDE_SIZE both halves; in a semaphore those seen and then those written.
pub const DATA_STRIDE: usize = 16;

// The number of an instruction, from 0 through the record.
#[derive(Clone, Copy)]
pub struct InstructionNo(pub usize);

// The number of an operation, from 0 through the record.
#[derive(Clone, Copy)]
pub struct OperationNo(pub usize);

// The lines of memory. Their initial bytes stay in the record (`initial_byte`).
#[derive(Clone, Copy)]
pub struct Lines {
    pub count: usize,
    pub attributes: [u8; MOST_LINES as usize],
}

// The instructions by number, and the number of their operations. Instruction i's data are the DATA_STRIDE of `bytes` from
// DATA_STRIDE * i on.
#[derive(Clone, Copy)]
pub struct Instructions {
    pub count: usize,
    pub operations: usize,
    pub processors: [u8; MOST_INSTRUCTIONS],
    pub kinds: [u8; MOST_INSTRUCTIONS],
    pub addresses: [u8; MOST_INSTRUCTIONS],
    pub sizes: [u8; MOST_INSTRUCTIONS],
    pub firsts: [u16; MOST_INSTRUCTIONS],
    pub bytes: [u8; DATA_STRIDE * MOST_INSTRUCTIONS],
}

// The dependence pairs: numbers of the earlier and the later instruction.
#[derive(Clone, Copy)]
pub struct Pairs {
    pub count: usize,
    pub earlier: [u8; MOST_PAIRS as usize],
    pub later: [u8; MOST_PAIRS as usize],
}

#[derive(Clone, Copy)]
pub struct Execution {
    pub processors: usize,
    pub lines: Lines,
    pub instructions: Instructions,
    pub pairs: Pairs,
}

// A byte as a number.
pub fn wide(b: u8) -> usize
    ensures { (result ≡ b) × (result < 256) }
{
    b as usize
}

// A 16-bit number as a number.
pub fn wide16(n: u16) -> usize
    ensures { (result ≡ n) × (result < 65536) }
{
    n as usize
}

// So many bytes of `from`, from index `start` on, into `to` from index `at` on.
pub fn copy_bytes(to: &mut [u8], at: usize, from: &[u8], start: usize, n: usize)
    requires { (at + n ≤ length to.old) × (start + n ≤ length from.now) }
    ensures { to.new ≡ paste to.old at (drop start from.now) n }
{
    // Not `copy_from_slice`: where both slices are lent to a call of the library for C, that calls `memmove`, which would have to be linked with it.
    for (j, &byte) in from[start..start + n].iter().enumerate() {
        to[at + j] = byte;
    }
}
