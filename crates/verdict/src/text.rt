// Text at the front of a lent buffer, as far as there is room.
ghost use Rattle.std.specs.Prelude.{◌≡◌, ◌∷◌, [], ◌≤◌, length, drop};
ghost use Rattle.model.specs.Verdict.{decimal};
ghost use Rattle.verdict.specs.Texts.{Appends};

// Writes one byte where there is room for it, and answers where the next one goes.
fn write_byte(out: &mut [u8], at: usize, byte: u8) -> usize
    ensures { Appends out.old at (byte ∷ []) out.new result }
{
    if at < out.len() {
        out[at] = byte;
        return at + 1;
    }
    at
}

// Writes bytes.
pub fn write_word(out: &mut [u8], at: usize, word: &[u8]) -> usize
    ensures { Appends out.old at word.now out.new result }
{
    let mut next = at;
    for &byte in word {
        next = write_byte(out, next, byte);
    }
    next
}

// The digits of a number, from the first one on, in an array with room for the longest: there is no heap for a String.
#[derive(Clone, Copy)]
struct Digits {
    bytes: [u8; 20],
    first: usize,
}

// The decimal digits of a number, without leading zeros.
fn digits_of(n: u64) -> Digits
    ensures { (drop result.first result.bytes ≡ decimal n) × (result.first ≤ 20) × (length result.bytes ≡ 20) }
{
    let mut bytes = [0u8; 20];
    let mut first: usize = 19;
    let mut rest = n;
    // How many digits there are shows only when they are written, so this is no `for`.
    while 9 < rest {
        bytes[first] = 48 + (rest % 10) as u8;
        rest = rest / 10;
        first = first - 1;
    }
    bytes[first] = 48 + (rest % 10) as u8;
    Digits { bytes, first }
}

// Writes a number in decimal.
pub fn write_decimal(out: &mut [u8], at: usize, n: u64) -> usize
    ensures { Appends out.old at (decimal n) out.new result }
{
    let digits = digits_of(n);
    let bytes = digits.bytes;
    let first = digits.first;
    write_word(out, at, &bytes[first..])
}
