// The calls that compare two records: whether they are equal but for the numbers of their processors, else which stands first; and the one that stands first.
#![tactic(auto)]

ghost use Rattle.std.specs.Prelude.{◌≡◌};
ghost use Rattle.model.specs.Calls.{says, read_all};
ghost use Rattle.model.specs.Renumbering.{comparison, compare_call, stands_first, first_call};
ghost use Rattle.record_decoded.specs.Decoded.{execution_of};
ghost use Rattle.record_compare.specs.Compared.{ordering_meant, compared_meant, handed_meant};

use record_decoded::question::Question;
use record_decoded::types::Execution;
use record_form::form::put_form;
use record_form::lex::lex_order;
use record_reader::reader::read;
use record_writer::compose::MAX_RECORD;
use std::cmp::Ordering;

// Two accepted records, by their smallest forms.
fn compare_accepted(left: &[u8], x: Execution, right: &[u8], y: Execution) -> Ordering
    requires { (read_all left.now ≡ says (execution_of left.now x)) × (read_all right.now ≡ says (execution_of right.now y)) }
    ensures { ordering_meant result ≡ comparison (execution_of left.now x) (execution_of right.now y) }
{
    let mut left_form = [0u8; MAX_RECORD];
    let mut right_form = [0u8; MAX_RECORD];
    let left_length = put_form(&mut left_form, left, x);
    let right_length = put_form(&mut right_form, right, y);
    lex_order(&left_form[..left_length], &right_form[..right_length])
}

// How the left record stands to the right one: less where it stands first, equal where they are but for the numbers of their processors.
pub fn compare(left: &[u8], right: &[u8]) -> Result<Ordering, Question>
    ensures { compared_meant result ≡ compare_call left.now right.now }
{
    let x = read(left)?;
    let y = read(right)?;
    Ok(compare_accepted(left, x, right, y))
}

// The left record, the right one, or the empty part of the left one.
#[derive(Clone, Copy, Debug, PartialEq, Eq)]
pub enum HandedBack {
    Left,
    Right,
    Empty,
}

// Which is handed back: the one that stands first, the left one where they are equal; the empty part where either is refused.
pub fn stands_first(left: &[u8], right: &[u8]) -> HandedBack
    ensures { handed_meant result ≡ stands_first (compare_call left.now right.now) }
{
    match compare(left, right) {
        Ok(Ordering::Equal) => HandedBack::Left,
        Ok(Ordering::Less) => HandedBack::Left,
        Ok(Ordering::Greater) => HandedBack::Right,
        Err(_) => HandedBack::Empty,
    }
}

// The record that stands first, as a part of what was lent.
pub fn first<'a>(left: &'a [u8], right: &'a [u8]) -> &'a [u8]
    ensures { result.now ≡ first_call left.now right.now }
{
    match stands_first(left, right) {
        HandedBack::Left => left,
        HandedBack::Right => right,
        HandedBack::Empty => &left[..0],
    }
}
