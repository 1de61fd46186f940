// The initial bytes of memory, which stay in the lent record: one is read at a time.
ghost use Rattle.std.specs.Prelude.{◌≡◌, ◌≤◌};
ghost use Rattle.record_decoded.specs.Decoded.{initial_of};

use crate::types::LINE_LENGTH;

// The byte that an address holds at the start, in a record of so many lines; 0 past the lines and past the record. P, the count of lines and the line's
// attribute stand before it.
pub fn initial_byte(bytes: &[u8], count: usize, address: usize) -> u8
    requires { count ≤ 8 }
    ensures { result ≡ initial_of bytes.now count address }
{
    let line = address / 8;
    if count <= line {
        return 0;
    }
    let at = 3 + LINE_LENGTH * line + address % 8;
    bytes.get(at).copied().unwrap_or(0)
}
