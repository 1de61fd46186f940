// The closure of a square: by way of each operation in turn, links become chains.
ghost use Rattle.std.specs.Prelude.{◌≡◌, ◌||◌, ℕ, ◌<◌, ◌≤◌, get_or, eqb};
ghost use Rattle.relation_chain_table.specs.Squares.{MarksAre, marked, via, closed_by};

use crate::square::is_marked;
use record_decoded::position::Position;
use record_decoded::types::OperationNo;

// The marks of two rows.
fn joined_row(
    m: &[[u8; Position::LIMIT]; Position::LIMIT],
    n: usize,
    from: OperationNo,
    way: OperationNo,
) -> [u8; Position::LIMIT]
    requires { (n ≤ 128) × (from.0 < 128) × (way.0 < 128) }
    ensures { (j : ℕ) → j < n → eqb (get_or result j 0) 1 ≡ (marked m.now from.0 j || marked m.now way.0 j) }
{
    let mut row = [0u8; Position::LIMIT];
    for j in 0..n {
        let to = OperationNo(j);
        // Both marks are read before they are joined: a turn that reads the second only where the first is none takes twice as long.
        let own = is_marked(m, from, to);
        let other = is_marked(m, way, to);
        row[j] = u8::from(own || other);
    }
    row
}

// The row of an operation, joined with that of another where it leads there.
#[tactic(auto, unfolding(crate::specs::Squares::via))]
fn row_via(
    m: &[[u8; Position::LIMIT]; Position::LIMIT],
    n: usize,
    from: OperationNo,
    way: OperationNo,
) -> [u8; Position::LIMIT]
    requires { (n ≤ 128) × (from.0 < 128) × (way.0 < 128) }
    ensures { (j : ℕ) → j < n → eqb (get_or result j 0) 1 ≡ via way.0 (marked m.now) from.0 j }
{
    if is_marked(m, from, way) {
        joined_row(m, n, from, way)
    } else {
        m[from.0]
    }
}

// Every row by way of one operation.
fn rows_via(
    m: &[[u8; Position::LIMIT]; Position::LIMIT],
    n: usize,
    way: OperationNo,
) -> [[u8; Position::LIMIT]; Position::LIMIT]
    requires { (n ≤ 128) × (way.0 < n) }
    ensures { MarksAre n result (via way.0 (marked m.now)) }
{
    let mut rows = [[0u8; Position::LIMIT]; Position::LIMIT];
    for i in 0..n {
        rows[i] = row_via(m, n, OperationNo(i), way);
    }
    rows
}

// The square closed to chains.
pub fn closed(
    links: [[u8; Position::LIMIT]; Position::LIMIT],
    n: usize,
) -> [[u8; Position::LIMIT]; Position::LIMIT]
    requires { n ≤ 128 }
    ensures { MarksAre n result (closed_by n (marked links)) }
{
    let mut square = links;
    for k in 0..n {
        square = rows_via(&square, n, OperationNo(k));
    }
    square
}
