// A position: a prefix of different operations, in an array with room for all, since there is no heap.
ghost use Rattle.std.specs.Prelude.{◌≡◌, [], ◌≤◌, take, replicate};
ghost use Rattle.std.proofs.Math.ListN as ListN;
ghost use Rattle.std.proofs.Math.Seq.{paste};
ghost use Rattle.record_decoded.specs.Positions.{position_of};

#[derive(Clone, Copy)]
pub struct Position {
    pub length: usize,
    pub entries: [u8; Position::LIMIT],
}

impl Position {
    // The most operations of a record, so the most entries.
    pub const LIMIT: usize = 128;

    // The position that a search begins at; its array is zero.
    pub fn empty() -> Position
        ensures { (position_of result ≡ []) × (result.length ≡ 0) × (ListN.length result.entries ≡ 128) × (result.entries ≡ replicate 128 0) }
    {
        Position {
            length: 0,
            entries: [0u8; Position::LIMIT],
        }
    }
}

// The position that stands at the front of a buffer.
pub fn saved_position(buffer: &[u8], saved: usize) -> Position
    requires { (saved ≤ 128) × (saved ≤ ListN.length buffer.now) }
    ensures { (position_of result ≡ take saved buffer.now) × (result.length ≡ saved) × (ListN.length result.entries ≡ 128) }
{
    let mut entries = [0u8; Position::LIMIT];
    entries[..saved].copy_from_slice(&buffer[..saved]);
    Position {
        length: saved,
        entries,
    }
}

// Writes a position at the front of a buffer.
pub fn write_position(buffer: &mut [u8], position: Position)
    requires { (position.length ≤ 128) × (position.length ≤ ListN.length buffer.old) }
    ensures { buffer.new ≡ paste buffer.old 0 position.entries position.length }
{
    let n = position.length;
    buffer[..n].copy_from_slice(&position.entries[..n]);
}
