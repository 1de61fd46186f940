// All rows.
ghost use Rattle.std.specs.Prelude.{◌≡◌, ◌*◌, ◌<◌, length};
ghost use Rattle.model.specs.Accepted.{Accepted};
ghost use Rattle.record_decoded.specs.Decoded.{execution_of};
ghost use Rattle.relation_links.specs.Compiled.{Compiled};
ghost use Rattle.search_admit.specs.Rows.{row_length, table_length, Bytes, RowsMean};
ghost use Rattle.search_rows.specs.Puts.{Put};

use crate::line::known_bytes;
use crate::row::row_of;
use crate::words::{ACCESS_WORDS, put_words};
use record_decoded::types::{Execution, MOST_INSTRUCTIONS, OperationNo};
use relation_links::operations::Operations;
use search_admit::ROW;

// Puts the row of an operation in.
fn put_row(rows: &mut [u64], o: OperationNo, row: &[u64])
    requires { (o.0 < 128) × (length rows.old ≡ table_length) × (length row.now ≡ row_length) }
    ensures { Put rows.old row.now (row_length * o.0) row_length rows.new }
{
    let at = ROW * o.0;
    for f in 0..ROW {
        rows[at + f] = row[f];
    }
}

// All data bytes are below 256. Nothing is computed: this is for proofs.
fn known_data(x: Execution)
    ensures { Bytes x.instructions.bytes }
{
    let is = x.instructions;
    let data = is.bytes;
    known_bytes(&data);
}

// Puts in what is compiled of an execution.
pub fn put_rows(
    bytes: &[u8],
    x: Execution,
    t: Operations,
    marks: &[[u16; MOST_INSTRUCTIONS]; MOST_INSTRUCTIONS],
    rows: &mut [u64],
)
    requires { Compiled x t marks.now × Accepted (execution_of bytes.now x) × (length rows.old ≡ table_length) }
    ensures { RowsMean bytes.now x t marks.now rows.new }
{
    let n = t.count;
    let owners = t.owners;
    let roles = t.roles;
    let is = x.instructions;
    let kinds = is.kinds;
    let firsts = is.firsts;
    let processors = is.processors;
    let addresses = is.addresses;
    let sizes = is.sizes;
    let mut bits = [0u64; ACCESS_WORDS];
    let mut seen = [0u64; ACCESS_WORDS];
    let mut written = [0u64; ACCESS_WORDS];
    put_words(bytes, x, &mut bits, &mut seen, &mut written);
    for o in 0..n {
        let row = row_of(
            x,
            t,
            marks,
            &owners,
            &roles,
            &kinds,
            &firsts,
            &processors,
            &addresses,
            &sizes,
            &bits,
            &seen,
            &written,
            OperationNo(o),
        );
        put_row(rows, OperationNo(o), &row);
    }
    known_data(x);
    // One by one, and none is kept.
    known_bytes(bytes);
}
