// The judge: whether an offered order is legal, or the lowest rule that it breaks.
#![tactic(auto)]

ghost use Rattle.std.specs.Prelude.{◌≡◌};
ghost use Rattle.model.specs.Calls.{judge_order, judge_call};
ghost use Rattle.model.specs.Accepted.{Accepted};
ghost use Rattle.record_decoded.specs.Decoded.{execution_of};
ghost use Rattle.judge_call.specs.Judgements.{judgement_meant};

use judge_rules::lowest::lowest_broken;
use record_decoded::question::Question;
use record_decoded::types::Execution;
use record_reader::reader::read;
use relation_links::operations::operations_of;
use relation_marks::between::all_marks;
use relation_places::place_all;

// What an order of an accepted execution comes to: questions 16 and 17, then the rules.
fn judge_order(bytes: &[u8], x: Execution, order: &[u8]) -> Result<Option<u8>, Question>
    requires { Accepted (execution_of bytes.now x) }
    ensures { judgement_meant result ≡ judge_order (execution_of bytes.now x) order.now }
{
    let t = operations_of(x.instructions, x.processors);
    if order.len() != t.count {
        return Err(Question::OrderLength);
    }
    let places = place_all(order, t.count).ok_or(Question::OrderEntries)?;
    let marks = all_marks(x);
    Ok(lowest_broken(bytes, x, t, &marks, &places))
}

// Judges an order of a record's operations: none where it is legal, else the number of the lowest rule that it breaks.
pub fn judge(bytes: &[u8], order: &[u8]) -> Result<Option<u8>, Question>
    ensures { judgement_meant result ≡ judge_call bytes.now order.now }
{
    let x = read(bytes)?;
    judge_order(bytes, x, order)
}
