// The rows of a square into a lent table, one after the other.
ghost use Rattle.std.specs.Prelude.{◌≡◌, ◌++◌, ◌*◌, ◌<◌, ◌≤◌, length, drop};
ghost use Rattle.std.proofs.Math.Seq.{paste};
ghost use Rattle.relation_chain_table.specs.Squares.{row_marks, square_marks};

use crate::square::is_marked;
use record_decoded::position::Position;
use record_decoded::types::OperationNo;

// The n marks of one row.
fn write_row(
    table: &mut [u8],
    m: &[[u8; Position::LIMIT]; Position::LIMIT],
    n: usize,
    from: OperationNo,
)
    requires { (from.0 < n) × (n ≤ 128) × (n * n ≤ length table.old) }
    ensures { table.new ≡ paste table.old (from.0 * n) (row_marks m.now n from.0) n }
{
    let at = from.0 * n;
    for b in 0..n {
        table[at + b] = u8::from(is_marked(m, from, OperationNo(b)));
    }
}

// The n rows.
pub fn write_rows(table: &mut [u8], m: &[[u8; Position::LIMIT]; Position::LIMIT], n: usize)
    requires { (n ≤ 128) × (n * n ≤ length table.old) }
    ensures { table.new ≡ square_marks m.now n n ++ drop (n * n) table.old }
{
    for a in 0..n {
        write_row(table, m, n, OperationNo(a));
    }
}
