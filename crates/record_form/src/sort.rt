// The processors of a record sorted by their keys: the program, the pairs by numbers within it, then a byte above every number.
ghost use Rattle.std.specs.Prelude.{◌≡◌, ◌∷◌, ◌++◌, ℕ, ◌+◌, ◌<◌, ◌≤◌, length, get_or, take, drop};
ghost use Rattle.base.specs.Orders.{sorted};
ghost use Rattle.base.specs.Lex.{lex_less};
ghost use Rattle.model.specs.Calls.{says, read_all};
ghost use Rattle.record_decoded.specs.Decoded.{instructions_of, pairs_of, execution_of};
ghost use Rattle.record_renumbering.specs.Keys.{key_less};
ghost use Rattle.record_form.specs.Places.{StartsMean, key_end};
ghost use Rattle.record_form.specs.Sorting.{place_for};

use crate::lex::lex_order;
use crate::processors::{Starts, own_pairs};
use record_decoded::types::{Execution, MOST_PROCESSORS, copy_bytes, wide};
use std::cmp::Ordering;

// Whether the pairs of processor a come before those of b.
fn pairs_less(x: Execution, starts: Starts, a: usize, b: usize) -> bool
    requires { (x.instructions.count ≤ 40) × (x.pairs.count ≤ 40) × StartsMean x.processors x.lines.count (instructions_of x.instructions) starts × (a < x.processors) × (b < x.processors) × (x.processors ≤ 8) }
    ensures { result ≡ lex_less (key_end (instructions_of x.instructions) (pairs_of x.pairs) a) (key_end (instructions_of x.instructions) (pairs_of x.pairs) b) }
{
    let firsts = starts.firsts;
    let left = own_pairs(x.instructions, x.pairs, a, firsts[a]);
    let right = own_pairs(x.instructions, x.pairs, b, firsts[b]);
    let left_length = left.length;
    let right_length = right.length;
    let left_bytes = left.bytes;
    let right_bytes = right.bytes;
    lex_order(&left_bytes[..left_length], &right_bytes[..right_length]).is_lt()
}

// Whether the key of processor a comes before that of b.
fn key_less(bytes: &[u8], x: Execution, starts: Starts, a: usize, b: usize) -> bool
    requires { (read_all bytes.now ≡ says (execution_of bytes.now x)) × StartsMean x.processors x.lines.count (instructions_of x.instructions) starts × (a < x.processors) × (b < x.processors) }
    ensures { result ≡ key_less (instructions_of x.instructions) (pairs_of x.pairs) a b }
{
    let places = starts.places;
    let left = places[a];
    let left_end = places[a + 1];
    let right = places[b];
    let right_end = places[b + 1];
    let order = lex_order(&bytes[left..left_end], &bytes[right..right_end]);
    match order {
        Ordering::Less => true,
        Ordering::Equal => pairs_less(x, starts, a, b),
        Ordering::Greater => false,
    }
}

// The processors in some order, by their numbers.
#[derive(Clone, Copy)]
pub struct Order {
    pub processors: [u8; MOST_PROCESSORS as usize],
}

// Where processor n belongs among the first n of the order: before the first one whose key comes after its own.
fn place_for(bytes: &[u8], x: Execution, starts: Starts, order: Order, n: usize) -> usize
    requires { (read_all bytes.now ≡ says (execution_of bytes.now x)) × StartsMean x.processors x.lines.count (instructions_of x.instructions) starts × (n < x.processors) × ((j : ℕ) → j < n → get_or order.processors j 0 < x.processors) }
    ensures { (result ≡ place_for (key_less (instructions_of x.instructions) (pairs_of x.pairs)) n (take n order.processors)) × (result ≤ n) }
{
    // Not `find`: its closure calls what asks for a processor of the record, and the check wants that shown of each turn.
    for j in 0..n {
        if key_less(bytes, x, starts, n, wide(order.processors[j])) {
            return j;
        }
    }
    n
}

// The first n of the order with processor n at a place among them.
fn inserted(order: Order, n: usize, at: usize) -> Order
    requires { (n < 8) × (at ≤ n) }
    ensures { (take (n + 1) result.processors ≡ take at (take n order.processors) ++ (n ∷ drop at (take n order.processors))) × (length result.processors ≡ 8) }
{
    let from = order.processors;
    let mut processors = order.processors;
    copy_bytes(&mut processors, at + 1, &from, at, n - at);
    processors[at] = n as u8;
    Order { processors }
}

// All processors, sorted.
pub fn sorted_processors(bytes: &[u8], x: Execution, starts: Starts) -> Order
    requires { (read_all bytes.now ≡ says (execution_of bytes.now x)) × StartsMean x.processors x.lines.count (instructions_of x.instructions) starts }
    ensures { (take x.processors result.processors ≡ sorted (key_less (instructions_of x.instructions) (pairs_of x.pairs)) x.processors) × (length result.processors ≡ 8) }
{
    let mut order = Order {
        processors: [0u8; MOST_PROCESSORS as usize],
    };
    for n in 0..x.processors {
        let at = place_for(bytes, x, starts, order, n);
        order = inserted(order, n, at);
    }
    order
}
