// The places of operations in an order, as a table: which of two operations stands before the other is one comparison.
#![tactic(auto)]

ghost use Rattle.std.specs.Prelude.{◌≡◌, ◌≤◌};
ghost use Rattle.relation_places.specs.Places.{placed, Placement, before_by};

use record_decoded::position::Position;
use record_decoded::types::{OperationNo, wide};

// The place of an operation that does not stand: past every other, so that `before` is one comparison, which with an Option would be three cases.
pub const ABSENT: u8 = 255;

// The place of an operation.
#[tactic(auto, unfolding(crate::specs::Places::placed))]
pub fn place_of(places: &[u8; Position::LIMIT], operation: OperationNo) -> u8
    ensures { result ≡ placed places.now operation.0 }
{
    let o = operation.0;
    if o < Position::LIMIT {
        places[o]
    } else {
        ABSENT
    }
}

// Whether operation a stands, and b stands later or not at all.
pub fn before(places: &[u8; Position::LIMIT], a: OperationNo, b: OperationNo) -> bool
    ensures { result ≡ before_by places.now a.0 b.0 }
{
    place_of(places, a) < place_of(places, b)
}

// The places of an order's operations, of n; none where two entries are the same, or one is no operation.
pub fn place_all(order: &[u8], n: usize) -> Option<[u8; Position::LIMIT]>
    requires { n ≤ 128 }
    ensures { Placement n order.now result }
{
    let mut places = [ABSENT; Position::LIMIT];
    for (k, &entry) in order.iter().enumerate() {
        let o = wide(entry);
        if o >= n || places[o] != ABSENT {
            return None;
        }
        places[o] = k as u8;
    }
    Some(places)
}
