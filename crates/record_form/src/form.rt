// The smallest renumbered form of a record, put together in an array with room for every record.
ghost use Rattle.std.specs.Prelude.{◌≡◌, map, ◌+◌, ◌%◌, ◌≤◌, ◌<◌, length, take};
ghost use Rattle.base.specs.Lists.{for, member};
ghost use Rattle.base.specs.Orders.{OrderOf};
ghost use Rattle.model.specs.Execution.{lines_from};
ghost use Rattle.model.specs.Calls.{says, read_all};
ghost use Rattle.model.specs.Sections.{pair_bytes};
ghost use Rattle.model.specs.Renumbering.{lower_instructions, local_pairs, pairs_from, touched, line_taken, head_taken, smallest_form};
ghost use Rattle.record_decoded.specs.Decoded.{instructions_of, pairs_of, execution_of};
ghost use Rattle.record_writer.specs.Puts.{Puts};
ghost use Rattle.record_form.specs.Ordered.{in_order};
ghost use Rattle.record_form.specs.Places.{StartsMean};

use crate::processors::{Starts, own_pairs, starts_of};
use crate::sort::{Order, sorted_processors};
use record_decoded::types::{Execution, Instructions, LINE_LENGTH, copy_bytes, wide};

// Whether an access of a size at an address touches a line.
fn touches(address: u8, size: u8, line: usize) -> bool
    ensures { result ≡ member (lines_from address size) line }
{
    let first = wide(address) / 8;
    let lines = (wide(size) + 7) / 8;
    first <= line && line < first + lines
}

fn is_touched(is: Instructions, line: usize) -> bool
    requires { is.count ≤ 40 }
    ensures { result ≡ touched (instructions_of is) line }
{
    (0..is.count).any(|i| touches(is.addresses[i], is.sizes[i], line))
}

const ZERO_LINE: [u8; LINE_LENGTH] = [0; LINE_LENGTH];

// A line of the record; zeros where no access touches it.
fn put_line(out: &mut [u8], at: usize, bytes: &[u8], x: Execution, line: usize) -> usize
    requires { (read_all bytes.now ≡ says (execution_of bytes.now x)) × (line < x.lines.count) × (at + 9 ≤ length out.old) }
    ensures { Puts out.old at (line_taken (execution_of bytes.now x) line) out.new result × (result ≡ at + 9) }
{
    if is_touched(x.instructions, line) {
        copy_bytes(out, at, bytes, 2 + LINE_LENGTH * line, LINE_LENGTH);
    } else {
        let none = ZERO_LINE;
        copy_bytes(out, at, &none, 0, LINE_LENGTH);
    }
    at + LINE_LENGTH
}

// What stands before the programs.
fn put_head(out: &mut [u8], bytes: &[u8], x: Execution) -> usize
    requires { (read_all bytes.now ≡ says (execution_of bytes.now x)) × (length out.old ≡ 923) }
    ensures { Puts out.old 0 (head_taken (execution_of bytes.now x)) out.new result }
{
    let lines = x.lines;
    out[0] = x.processors as u8;
    out[1] = lines.count as u8;
    let mut next = 2;
    for k in 0..lines.count {
        next = put_line(out, next, bytes, x, k);
    }
    next
}

// The programs, in this order of the processors.
fn put_programs(
    out: &mut [u8],
    at: usize,
    bytes: &[u8],
    x: Execution,
    starts: Starts,
    order: Order,
) -> usize
    requires { (read_all bytes.now ≡ says (execution_of bytes.now x)) × StartsMean x.processors x.lines.count (instructions_of x.instructions) starts × OrderOf x.processors (take x.processors order.processors) × (at + length (for (in_order x order) (λ c. c.program)) ≤ length out.old) }
    ensures { Puts out.old at (for (in_order x order) (λ c. c.program)) out.new result }
{
    let places = starts.places;
    let mut next = at;
    for k in 0..x.processors {
        let p = wide(order.processors[k]);
        let from = places[p];
        let n = places[p + 1] - from;
        copy_bytes(out, next, bytes, from, n);
        next = next + n;
    }
    next
}

// The pairs of processor p, before whose program `first` instructions stood, where now `raise` instructions do.
fn put_own(out: &mut [u8], at: usize, x: Execution, p: usize, first: usize, raise: usize) -> usize
    requires { (x.instructions.count ≤ 40) × (x.pairs.count ≤ 40) × (first ≡ length (lower_instructions (instructions_of x.instructions) p)) × (at + length (for (local_pairs (instructions_of x.instructions) (pairs_of x.pairs) p) pair_bytes) ≤ length out.old) × (raise ≤ 40) }
    ensures { Puts out.old at (map (λ k. (raise + k) % 256) (for (local_pairs (instructions_of x.instructions) (pairs_of x.pairs) p) pair_bytes)) out.new result }
{
    let own = own_pairs(x.instructions, x.pairs, p, first);
    let n = own.length - 1;
    for j in 0..n {
        out[at + j] = ((raise + wide(own.bytes[j])) % 256) as u8;
    }
    at + n
}

// The pairs of all processors, in this order.
fn put_pairs(
    out: &mut [u8],
    at: usize,
    bytes: &[u8],
    x: Execution,
    starts: Starts,
    order: Order,
) -> usize
    requires { (read_all bytes.now ≡ says (execution_of bytes.now x)) × StartsMean x.processors x.lines.count (instructions_of x.instructions) starts × OrderOf x.processors (take x.processors order.processors) × (at + length (pairs_from 0 (in_order x order)) ≤ length out.old) }
    ensures { Puts out.old at (pairs_from 0 (in_order x order)) out.new result }
{
    let firsts = starts.firsts;
    let mut next = at;
    let mut raise = 0;
    for k in 0..x.processors {
        let p = wide(order.processors[k]);
        let first = firsts[p];
        next = put_own(out, next, x, p, first, raise);
        raise = raise + (firsts[p + 1] - first);
    }
    next
}

// The smallest form; answers how long it is.
pub fn put_form(out: &mut [u8], bytes: &[u8], x: Execution) -> usize
    requires { (read_all bytes.now ≡ says (execution_of bytes.now x)) × (length out.old ≡ 923) }
    ensures { (take result out.new ≡ smallest_form (execution_of bytes.now x)) × (result ≤ 923) }
{
    let lines = x.lines;
    let pairs = x.pairs;
    let starts = starts_of(x.processors, lines.count, x.instructions);
    let order = sorted_processors(bytes, x, starts);
    let mut next = put_head(out, bytes, x);
    next = put_programs(out, next, bytes, x, starts, order);
    out[next] = pairs.count as u8;
    put_pairs(out, next + 1, bytes, x, starts, order)
}
