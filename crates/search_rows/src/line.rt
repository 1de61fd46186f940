// The bytes of an access in one line as one word, the lowest address in the low byte.
ghost use Rattle.std.specs.Prelude.{◌≡◌, ◌&&◌, ◌||◌, ℕ, ◌+◌, ◌*◌, ◌-◌, ◌/◌, ◌%◌, ◌<◌, ◌≤◌, eqb, leb, ltb};
ghost use Rattle.base.specs.Bits.{bit};
ghost use Rattle.search_admit.specs.Rows.{Bytes};
ghost use Rattle.search_rows.specs.Lent.{relative_bit};

use record_decoded::initial::initial_byte;
use record_decoded::types::{DATA_STRIDE, InstructionNo, MOST_INSTRUCTIONS, wide};

// A word, with a byte at a place among its eight where nothing stands yet.
fn with_byte(word: u64, byte: u8, place: usize) -> u64
    requires { place < 8 }
    ensures { (i : ℕ) → i < 64 → bit result i ≡ (bit word i || (eqb (i / 8) place && bit byte (i % 8))) }
{
    let value = byte as u64;
    let shift = 8 * place;
    word | (value << shift)
}

// The bits of so many bytes from a place on.
pub fn bits_from(place: usize, size: usize) -> u64
    requires { place + size ≤ 8 }
    ensures { (i : ℕ) → i < 64 → bit result i ≡ (leb place (i / 8) && ltb (i / 8) (place + size)) }
{
    let mut word = 0;
    for j in 0..size {
        word = with_byte(word, 255, place + j);
    }
    word
}

// So many data bytes of instruction w from one on, from its address's place in the line on, each relative to the initial byte of its own address.
pub fn relative_from(
    bytes: &[u8],
    count: usize,
    data: &[u8; DATA_STRIDE * MOST_INSTRUCTIONS],
    w: InstructionNo,
    from: usize,
    address: usize,
    size: usize,
) -> u64
    requires { (count ≤ 8) × (w.0 < 40) × (from + size ≤ 16) × (address < 512) × (address % 8 + size ≤ 8) }
    ensures { (i : ℕ) → i < 64 → bit result i ≡ relative_bit bytes.now count «data».now (16 * w.0 + from) address size i }
{
    let at = DATA_STRIDE * w.0 + from;
    let place = address % 8;
    let mut word = 0;
    for j in 0..size {
        let here = address + j;
        let initial = initial_byte(bytes, count, here);
        word = with_byte(word, data[at + j] ^ initial, place + j);
    }
    word
}

// Every byte is below 256. Nothing is computed: this is for proofs.
pub fn known_bytes(bytes: &[u8])
    ensures { Bytes bytes.now }
{
    let n = bytes.len();
    for j in 0..n {
        wide(bytes[j]);
    }
}
