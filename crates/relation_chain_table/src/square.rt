// The square of links: a 1 where some rule links the operation of the row to that of the column.
ghost use Rattle.std.specs.Prelude.{◌≡◌, ℕ, ◌<◌, ◌≤◌, get_or, eqb};
ghost use Rattle.relation_links.specs.Linked.{linked_at};
ghost use Rattle.relation_chain_table.specs.Squares.{marked, MarksAre};

use record_decoded::position::Position;
use record_decoded::types::{Instructions, MOST_INSTRUCTIONS, OperationNo, wide};
use relation_links::link::is_linked;
use relation_links::operations::Operations;

// Whether the cell of a row and a column is 1.
pub fn is_marked(
    m: &[[u8; Position::LIMIT]; Position::LIMIT],
    from: OperationNo,
    to: OperationNo,
) -> bool
    requires { (from.0 < 128) × (to.0 < 128) }
    ensures { result ≡ marked m.now from.0 to.0 }
{
    m[from.0][to.0] == 1
}

// The links from an operation.
fn links_row(
    is: Instructions,
    t: Operations,
    marks: &[[u16; MOST_INSTRUCTIONS]; MOST_INSTRUCTIONS],
    from: OperationNo,
) -> [u8; Position::LIMIT]
    requires { (from.0 < t.count) × (t.count ≤ 128) × ((o : ℕ) → o < t.count → get_or t.owners o 0 < 40) }
    ensures { (b : ℕ) → b < t.count → eqb (get_or result b 0) 1 ≡ linked_at is t marks.now from.0 b }
{
    let first = wide(t.owners[from.0]);
    let processor = is.processors[first];
    let role = t.roles[from.0];
    let mut row = [0u8; Position::LIMIT];
    for b in 0..t.count {
        let between = marks[first][wide(t.owners[b])];
        row[b] = u8::from(is_linked(between, processor, role, t.roles[b]));
    }
    row
}

// The links between all operations.
pub fn links_square(
    is: Instructions,
    t: Operations,
    marks: &[[u16; MOST_INSTRUCTIONS]; MOST_INSTRUCTIONS],
) -> [[u8; Position::LIMIT]; Position::LIMIT]
    requires { (t.count ≤ 128) × ((o : ℕ) → o < t.count → get_or t.owners o 0 < 40) }
    ensures { MarksAre t.count result (linked_at is t marks.now) }
{
    let mut square = [[0u8; Position::LIMIT]; Position::LIMIT];
    for a in 0..t.count {
        square[a] = links_row(is, t, marks, OperationNo(a));
    }
    square
}
