// The verdict: what the program prints for the bytes of its input.
#![tactic(auto)]

ghost use Rattle.std.specs.Prelude.{◌≡◌, ◌++◌, ◌≤◌, length, take};
ghost use Rattle.base.specs.Lists.{for};
ghost use Rattle.model.specs.Verdict.{input_limit, blank, line_feed, word_steps, word_refused, decimal, lines, verdict_lines};
ghost use Rattle.record_decoded.specs.Refusals.{question_number};
ghost use Rattle.verdict.specs.Totals.{total_of};
ghost use Rattle.verdict.specs.Texts.{Appends, Prints};

mod calls;
mod text;

use crate::calls::{Total, search_in_calls};
use crate::text::{write_decimal, write_word};
use record_decoded::question::Question;
use search_resume::steps::Verdict;

// The most bytes that are taken as the record.
pub const INPUT_LIMIT: usize = 1024;

// Room for the lines of any verdict.
pub const LINES_LIMIT: usize = 4096;

// Writes a blank and a number.
fn write_number(out: &mut [u8], at: usize, n: u64) -> usize
    ensures { Appends out.old at (blank ++ decimal n) out.new result }
{
    let next = write_word(out, at, b" ");
    write_decimal(out, next, n)
}

// Writes operation numbers, each after a blank.
fn write_order(out: &mut [u8], at: usize, order: &[u8]) -> usize
    ensures { Appends out.old at (for order.now (λ o. blank ++ decimal o)) out.new result }
{
    let mut next = at;
    for &o in order {
        next = write_number(out, next, u64::from(o));
    }
    next
}

// Writes the line of the steps.
fn write_steps(out: &mut [u8], at: usize, steps: u64) -> usize
    ensures { Appends out.old at (word_steps ++ blank ++ decimal steps ++ line_feed) out.new result }
{
    let word = write_word(out, at, b"steps");
    let count = write_number(out, word, steps);
    write_word(out, count, b"\n")
}

// Writes the lines of a search that was not refused.
fn write_total(out: &mut [u8], total: Total) -> usize
    requires { total.length ≤ length total.buffer }
    ensures { Appends out.old 0 (lines (total_of total)) out.new result }
{
    match total.verdict {
        Verdict::Allowed => {
            let word = write_word(out, 0, b"allowed");
            let order = write_order(out, word, &total.buffer[..total.length]);
            let line = write_word(out, order, b"\n");
            write_steps(out, line, total.steps)
        }
        Verdict::Forbidden => {
            let line = write_word(out, 0, b"forbidden\n");
            write_steps(out, line, total.steps)
        }
        Verdict::Unfinished => {
            let line = write_word(out, 0, b"unfinished\n");
            write_steps(out, line, total.steps)
        }
    }
}

// Writes the line of a refusal.
fn write_refusal(out: &mut [u8], q: Question) -> usize
    ensures { Appends out.old 0 (word_refused ++ blank ++ decimal (question_number q) ++ line_feed) out.new result }
{
    let word = write_word(out, 0, b"refused");
    let number = write_number(out, word, u64::from(q.number()));
    write_word(out, number, b"\n")
}

// The bytes that are taken as the record.
fn record_of(input: &[u8]) -> &[u8]
    ensures { result.now ≡ take input_limit input.now }
{
    &input[..input.len().min(INPUT_LIMIT)]
}

// Writes the verdict on a record at the front of a buffer, as far as there is room, and answers how many bytes it wrote.
pub fn verdict(input: &[u8], out: &mut [u8]) -> usize
    ensures { Prints out.old (verdict_lines input.now) out.new result }
{
    let bytes = record_of(input);
    match search_in_calls(bytes) {
        Ok(total) => write_total(out, total),
        Err(q) => write_refusal(out, q),
    }
}
